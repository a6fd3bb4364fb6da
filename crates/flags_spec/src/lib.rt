// Owners and the adding merge of flags.
// No function: types, definitions, examples and laws, which the contracts of `flags` cite. See specs/ and proofs/.
#![tactic(auto)]

mod owners;

pub use owners::{Choice, MergingOwnersStrategy};
