// Totals per owner and epoch: a table of rows, and what replacing one element's flags does to it.
// No function: types, definitions, examples and laws, which the contracts of `totals` cite. See specs/ and proofs/.
#![tactic(auto)]

mod finding;
mod replacing;

pub use finding::RowSpot;
pub use replacing::Named;
