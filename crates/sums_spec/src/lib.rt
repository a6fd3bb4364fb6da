// The sum of two removals, and in which orders removals can be added.
// No function: types, definitions, examples and laws, which the contracts of `sums` cite. See specs/ and proofs/.
#![tactic(auto)]

mod join;

pub use join::LastRow;
