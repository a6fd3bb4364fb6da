// Owners and the adding merge of flags.
#![tactic(auto)]

mod adding;
mod owners;
mod placing;

pub use adding::{combine_absent, combine_added_bytes, optional_combine_added_bytes};
pub use owners::{choose_owner, choose_owner_id, combine_owner_id, combine_owners};
pub use placing::{hand_on, place_union};
