// Sizes: that of the longest record, and what the size of flags to be made is asked for.

// No record is longer: two bytes of epoch and five of count. It is `longest_record`, by way of the longest flags in `migrate::main`.
pub const LONGEST_RECORD: usize = 7;

// How many changes there are about, and the size of each.
#[derive(Clone, Copy)]
pub struct Changes {
    pub count: u16,
    pub size: u8,
}
