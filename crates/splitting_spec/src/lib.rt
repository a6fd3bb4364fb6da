// Which epochs give how many bytes of a removal.
// No function: types, definitions, examples and laws, which the contracts of `splitting` cite. See specs/ and proofs/.
#![tactic(auto)]

mod giving;
mod split;

pub use giving::Visited;
pub use split::ValueSplit;
