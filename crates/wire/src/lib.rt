// The fields of stored questions and replies: reading a question, and holding an answer against a reply.
#![tactic(auto)]

mod answers;
mod call;
mod field;
mod question;
mod reply;
mod table;

pub use call::{CALLS, Call};
pub use field::Field;
pub use question::{Mismatch, QuestionBytes};
pub use reply::{Comparison, ReplyBytes};
pub use table::{FlagsAsked, RowTables, Rows, TABLE_PLACES, Table, TableOf, TablesAsked};
