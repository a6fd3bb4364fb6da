// Reading the records of flag bytes, and judging them without writing.
#![tactic(auto)]

mod block;
mod filling;
mod head;
mod judging;
mod record;
mod two_passes;

pub use filling::read_blocks;
pub use head::{base_in, head_in, head_size};
pub use judging::{judge, judge_as};
