// Whose rows a change is about.

// An owner, and how many records are named under it.
#[derive(Clone, Copy)]
pub struct Named {
    pub owner: [u8; 32],
    pub records: usize,
}
