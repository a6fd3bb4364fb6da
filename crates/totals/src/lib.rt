// Totals per owner and epoch: a lent table of rows, and what replacing one element's flags does to it.
#![tactic(auto)]

mod judging;
mod replacing;

pub use judging::{LARGEST_TOTAL, count_at};
pub use replacing::{is_good, names_of, replace};
pub use totals_rows::is_less;
