// The removal state.

// None, one number, or a number of rows.
#[derive(Clone, Copy)]
pub enum Removed {
    None,
    Basic(u32),
    Sectioned(usize),
}

// A removal; its rows stand in the first places of three tables.
#[derive(Clone, Copy)]
pub struct StorageRemovedBytes {
    pub removed: Removed,
}
