// Rows of a sectioned removal in three tables, their order, the removal state, and what a call that gives a removal leaves.
// No function: types, definitions, examples and laws, which the contracts of `rows` cite. See specs/ and proofs/.
#![tactic(auto)]

mod removed;

pub use removed::{Removed, StorageRemovedBytes};
