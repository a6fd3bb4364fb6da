// What reading one record finds.

// A record's epoch, its count and the place behind it.
#[derive(Clone, Copy)]
pub struct GotRecord {
    pub epoch: u16,
    pub count: u32,
    pub next: usize,
}
