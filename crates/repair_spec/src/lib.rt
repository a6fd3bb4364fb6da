// Repair of flag bytes from before the canonical rule.
// No function: types, definitions, examples and laws, which the contracts of `repair` cite. See specs/ and proofs/.
#![tactic(auto)]

mod change;
mod limits;
mod listing;
mod old;
mod repairing;

pub use change::Change;
pub use limits::{ALL_EPOCHS, LAST_EPOCH, LONGEST_FLAGS};
pub use listing::Behind;
pub use old::GotOld;
pub use repairing::Sizes;
