// The fields of flag bytes: varints and big-endian numbers, read and written at a place of a lent slice.
#![tactic(auto)]

mod big;
mod limits;
mod varint;

pub use big::{be16_at, put_be16};
pub use limits::len_by_limits;
pub use varint::{LARGEST, judge_varint, put_varint, read_varint, varint_at, varint_len};
