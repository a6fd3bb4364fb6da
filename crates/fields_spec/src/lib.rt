// The fields of flag bytes: what varints and big-endian numbers are.
// No function: types, definitions, examples and laws, which the contracts of `fields` cite. See specs/ and proofs/.
#![tactic(auto)]

mod varint;

pub use varint::{Varint, VarintFault};
