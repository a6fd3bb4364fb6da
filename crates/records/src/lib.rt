// Flags by value: the head, and the two lent tables that hold records.
#![tactic(auto)]

mod head;
mod joining;
mod room;
mod table;

pub use head::{
    base_epoch, id_of, is_multi, is_owned, new_head, new_single_epoch, no_head, owner_id,
    same_owner, set_owner_id, type_byte,
};
pub use joining::copy_run;
pub use room::fit;
pub use table::{
    ascend, copy_records, drop_record, find, is_proper, look_up, next_record, union_into, union_len,
};
