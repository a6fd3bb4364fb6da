// What looking at the two tables of records finds.

// What stands around an epoch: how many records are below it, how many are at most there, and the count there, or 0.
#[derive(Clone, Copy)]
pub struct Spot {
    pub below: usize,
    pub upto: usize,
    pub count: u32,
}

// The next record of a union, and the places behind it in the two tables.
#[derive(Clone, Copy)]
pub struct NextRecord {
    pub epoch: u16,
    pub count: u32,
    pub i: usize,
    pub j: usize,
}
