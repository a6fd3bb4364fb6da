// What judging and reading a varint find.

// Why no count stands at a place, with the place.
#[derive(Clone, Copy, Debug, PartialEq, Eq)]
pub enum VarintFault {
    // The bytes end first, or ten bytes all have the top bit set.
    Incomplete(usize),
    // It says more than 32 bits hold, or it is longer than minimal.
    NotCanonical(usize),
}

// What a varint says, and the place behind it.
#[derive(Clone, Copy)]
pub struct Varint {
    pub count: u32,
    pub next: usize,
}
