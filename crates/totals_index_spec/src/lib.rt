// Totals per owner and epoch in a slice of structs, changed by way of a work area.
// No function: types, definitions, examples and laws, which the contracts of `totals_index` cite. See specs/ and proofs/.
#![tactic(auto)]

mod judging;
mod structs;

pub use judging::Judging;
pub use structs::Total;
