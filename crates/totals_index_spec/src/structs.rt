// A row of totals as a struct.

// A row of the table: who paid, in which epoch, and how many bytes in all.
#[repr(C)]
#[derive(Clone, Copy)]
pub struct Total {
    pub owner: [u8; 32],
    pub epoch: u16,
    pub total: u64,
}
