// What listing the changes goes on with.

// The place behind a record's lines, and the highest epoch kept with it.
#[derive(Clone, Copy)]
pub struct Behind {
    pub k: usize,
    pub highest: u16,
}
