// Replaying the merges: 10 to 13.
#![tactic(auto)]

mod adding;
mod removing;

pub use adding::{combine_added_bytes, optional_combine_added_bytes};
pub use removing::{combine_removed_bytes, optional_combine_removed_bytes};
