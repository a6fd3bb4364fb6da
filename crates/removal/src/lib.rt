// The removal layer: the removing merge of flags, and with it what the crates below have for callers (rows, sums and splitting).
#![tactic(auto)]

mod remaining;
mod removing;
mod sections;

pub use removing::{combine_removed_bytes, optional_combine_removed_bytes};
pub use rows::{has_removal, total_removed_bytes};
pub use splitting::{split_key_removed_bytes, split_value_removed_bytes};
pub use sums::add_assign;
