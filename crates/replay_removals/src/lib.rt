// Replaying the calls on removals: the splits and the sums.
#![tactic(auto)]

mod removals;
mod splits;

pub use removals::{add_assign, has_removal, total_removed_bytes};
pub use splits::{split_key_removed_bytes, split_value_removed_bytes};
