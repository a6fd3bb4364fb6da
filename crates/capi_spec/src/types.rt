// The structs that pass between C and the calls, laid out as C lays them out. They hold no enum: a kind is a byte here.

// Flags without their records.
#[repr(C)]
#[derive(Clone, Copy)]
pub struct CHead {
    pub kind: u8,
    pub base: u16,
    pub owner: [u8; 32],
    pub records: usize,
}

// Flags or none, or a refusal.
#[repr(C)]
#[derive(Clone, Copy)]
pub struct CFlags {
    pub refusal: u32,
    pub present: u8,
    pub head: CHead,
}

// A number, or a refusal.
#[repr(C)]
#[derive(Clone, Copy)]
pub struct CCount {
    pub refusal: u32,
    pub count: u64,
}

// A removal without its rows: kind 0 none, 1 a number of bytes, 2 a number of rows.
#[repr(C)]
#[derive(Clone, Copy)]
pub struct CRemoval {
    pub kind: u8,
    pub bytes: u32,
    pub rows: usize,
}

// A removal, or a refusal.
#[repr(C)]
#[derive(Clone, Copy)]
pub struct CSum {
    pub refusal: u32,
    pub removal: CRemoval,
}

// The removal of a value's bytes and the number of records visited, or a refusal.
#[repr(C)]
#[derive(Clone, Copy)]
pub struct CValueSplit {
    pub refusal: u32,
    pub removal: CRemoval,
    pub visited: usize,
}

// Whose owner it is, 0 none, 1 ours, 2 theirs, or a refusal.
#[repr(C)]
#[derive(Clone, Copy)]
pub struct COwner {
    pub refusal: u32,
    pub which: u8,
}

// 32 bytes that name who paid.
#[repr(C)]
#[derive(Clone, Copy)]
pub struct CId {
    pub bytes: [u8; 32],
}

// An owner or none, or a refusal.
#[repr(C)]
#[derive(Clone, Copy)]
pub struct CMaybeOwner {
    pub refusal: u32,
    pub present: u8,
    pub id: CId,
}

// How many bytes and lines of a repair stand in what was lent for them, or a refusal.
#[repr(C)]
#[derive(Clone, Copy)]
pub struct CRepaired {
    pub refusal: u32,
    pub bytes: usize,
    pub lines: usize,
}
