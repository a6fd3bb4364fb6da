// The sum of two removals, in place.
#![tactic(auto)]

mod sum;

pub use sum::add_assign;
