// Rows of totals in three lent slices: their order, finding, moving, and the rows of one owner taken and added.
#![tactic(auto)]

mod finding;
mod moving;
mod table;
mod words;
mod writing;

pub use finding::look_up_row;
pub use table::{table_is_proper, totals_fit};
pub use words::is_less;
pub use writing::{add_new_counts, take_old_counts};
