// Flag bytes: what reading and writing answer and leave, and sizes.
// No function: types, definitions, examples and laws, which the contracts of `codec` cite. See specs/ and proofs/.
#![tactic(auto)]

mod blocks;
mod head;
mod judging;
mod record;
mod sizes;

pub use blocks::{BLOCK_RECORDS, Block};
pub use head::{BEHIND_KIND, BEHIND_OWNER, OWNED_HEAD, UNOWNED_HEAD};
pub use judging::Fault;
pub use record::GotRecord;
pub use sizes::{Changes, LONGEST_RECORD};
