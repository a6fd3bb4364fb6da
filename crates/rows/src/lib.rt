// Rows of a sectioned removal in three lent tables, their order, and the removal state.
#![tactic(auto)]

mod order;
mod removed;
mod row;

pub use order::{compare_ids, compare_rows};
pub use removed::{has_removal, removal_is_proper, total_removed_bytes};
pub use row::{are_proper, put_row, rows_fit};
