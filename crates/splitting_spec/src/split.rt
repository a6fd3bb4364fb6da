// What a value split answers.
use rows_spec::StorageRemovedBytes;

// The removal of the value's bytes, and how many records were visited.
#[derive(Clone, Copy)]
pub struct ValueSplit {
    pub removal: StorageRemovedBytes,
    pub visited: usize,
}
