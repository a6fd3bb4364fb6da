// What reading a block of records finds.

// The most records of a block: `block_records`, by the proof of `codec_judging::read_block` and of those that lend it tables.
pub const BLOCK_RECORDS: usize = 64;

// How many records a block has, the place behind them, and the epoch of the last.
#[derive(Clone, Copy)]
pub struct Block {
    pub n: usize,
    pub next: usize,
    pub last: u16,
}
