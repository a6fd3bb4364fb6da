// Flags: heads, refusals, and the two tables that hold records.
// Types with their conversions, definitions, examples and laws, which the contracts of `records` cite; no other function. See specs/ and proofs/.
#![tactic(auto)]

mod head;
mod refusal;
mod table;

pub use head::{Head, Kind, OWNER_LENGTH, OwnerId};
pub use refusal::Refusal;
pub use table::{NextRecord, Spot};
