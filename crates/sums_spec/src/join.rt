// What joining rows from the back finds.

// The last row of a join, and how many rows of both sides are before it.
#[derive(Clone, Copy)]
pub struct LastRow {
    pub id: [u8; 32],
    pub epoch: u16,
    pub bytes: u32,
    pub i: usize,
    pub j: usize,
}
