// What visiting the records finds.

// How many records were visited, and what they left for the base.
#[derive(Clone, Copy)]
pub struct Visited {
    pub records: usize,
    pub left: u32,
}
