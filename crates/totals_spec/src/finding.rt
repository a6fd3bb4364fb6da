// What looking for a pair of owner and epoch finds.

// A place, and the total of the row that stands there; 0 where it is another owner's or epoch's, or none.
#[derive(Clone, Copy)]
pub struct RowSpot {
    pub place: usize,
    pub total: u64,
}
