// Writing flag bytes, and their sizes.
#![tactic(auto)]

mod sizes;
mod writing;

pub use sizes::{approximate_size, serialized_size};
pub use writing::serialize;
