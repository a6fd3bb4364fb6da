// What every call answers to C, and what C's structs stand for.
// No function: types, definitions, examples and laws, which the contracts of `capi` cite. See specs/ and proofs/.
#![tactic(auto)]

mod types;

pub use types::{
    CCount, CFlags, CHead, CId, CMaybeOwner, COwner, CRemoval, CRepaired, CSum, CValueSplit,
};
