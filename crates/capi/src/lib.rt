// Every public call under the name and in the form that C calls it by. The static library `capi_c` exports them.
#![tactic(auto)]

mod adding;
mod heads;
mod owners;
mod reading;
mod removals;
mod removing;
mod repairing;
mod replacing;
mod structs;
mod writing;

pub use adding::{petasunok_combine_added_bytes, petasunok_optional_combine_added_bytes};
pub use heads::{
    petasunok_base_epoch, petasunok_new_single_epoch, petasunok_owner_id, petasunok_set_owner_id,
    petasunok_type_byte,
};
pub use owners::petasunok_combine_owner_id;
pub use reading::{
    petasunok_deserialize, petasunok_deserialize_multi_epoch,
    petasunok_deserialize_multi_epoch_owned, petasunok_deserialize_single_epoch,
    petasunok_deserialize_single_epoch_owned,
};
pub use removals::{
    petasunok_add_assign, petasunok_has_removal, petasunok_split_key_removed_bytes,
    petasunok_split_value_removed_bytes, petasunok_total_removed_bytes,
};
pub use removing::{petasunok_combine_removed_bytes, petasunok_optional_combine_removed_bytes};
pub use repairing::petasunok_repair;
pub use replacing::petasunok_totals_replace;
pub use structs::petasunok_totals_replace_structs;
pub use writing::{petasunok_approximate_size, petasunok_serialize, petasunok_serialized_size};
