// What is done in the work area: rows taken apart into it, changed there, and put together again.
#![tactic(auto)]

mod structs;
mod work;

pub use structs::{put_together, take_apart};
pub use work::{replace_in, rows_to_put, rows_to_take};
