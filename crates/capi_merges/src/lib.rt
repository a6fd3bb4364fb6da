// The adding and the removing merge on what C gives, told as C gets it.
#![tactic(auto)]

mod adding;
mod removing;

pub use adding::{combine_added_bytes, optional_combine_added_bytes};
pub use removing::{combine_removed_bytes, optional_combine_removed_bytes};
