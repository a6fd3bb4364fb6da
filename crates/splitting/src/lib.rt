// Splitting a removal: which epochs give how many of its bytes.
#![tactic(auto)]

mod giving;
mod key;
mod value;

pub use giving::MINIMUM_NON_BASE_FLAGS_SIZE;
pub use key::split_key_removed_bytes;
pub use value::split_value_removed_bytes;
