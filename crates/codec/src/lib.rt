// Flag bytes: reading, writing, and their sizes.
#![tactic(auto)]

mod reading;

pub use codec_judging::{base_in, head_in, head_size, judge, judge_as};
pub use codec_writing::{approximate_size, serialize, serialized_size};
pub use reading::{
    deserialize, deserialize_multi_epoch, deserialize_multi_epoch_owned, deserialize_single_epoch,
    deserialize_single_epoch_owned,
};
