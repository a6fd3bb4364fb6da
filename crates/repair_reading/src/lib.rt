// Reading old records, whose varints may be longer than minimal.
#![tactic(auto)]

mod old;
mod padded;

pub use old::read_old;
