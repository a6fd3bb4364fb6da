// Reading records a block at a time: a block into tables of its own, and all blocks to judge them, which writes nothing else.
ghost use Rattle.std.specs.Prelude.{◌≡◌, ◌≤◌, length, drop};
ghost use Rattle.codec_spec.specs.Reading.{parse};
ghost use Rattle.codec_spec.specs.Inner.Blocks.{block_records, Blocked, scan_of};

use crate::record::{fault, read_record};
use codec_spec::{BLOCK_RECORDS, Block, Fault};
use records_spec::Refusal;

// Reads records from `start` on, at most those of a block, and puts them at the start of the two tables.
pub fn read_block(
    src: &[u8],
    start: usize,
    base: u16,
    epochs: &mut [u16],
    counts: &mut [u32],
) -> Result<Block, Fault>
    requires start_in_bounds { start ≤ length src.now }
    requires block_records_in_bounds { (block_records ≤ length epochs.old) × (block_records ≤ length counts.old) }
    ensures { Blocked src.now start base result epochs.old counts.old epochs.new counts.new }
{
    let mut block = Block {
        n: 0,
        next: start,
        last: base,
    };
    // The block grows by a record a turn, and may end before it is full.
    while block.n < BLOCK_RECORDS && block.next < src.len() {
        let record = read_record(src, block.next, block.last)?;
        epochs[block.n] = record.epoch;
        counts[block.n] = record.count;
        block = Block {
            n: block.n + 1,
            next: record.next,
            last: record.epoch,
        };
    }
    Ok(block)
}

// Judges all records from `start` to the end, block by block. The two tables are room for a block; what they are left with says nothing.
pub fn judge_records(
    src: &[u8],
    start: usize,
    base: u16,
    epochs: &mut [u16],
    counts: &mut [u32],
) -> Result<usize, Fault>
    requires start_in_bounds { start ≤ length src.now }
    requires block_records_in_bounds { (block_records ≤ length epochs.old) × (block_records ≤ length counts.old) }
    ensures { let parsed = parse start 0 base (drop start src.now) in
        result ≡ scan_of (length src.now) parsed.fault (length parsed.records) }
{
    let mut at = start;
    let mut prev = base;
    let mut n = 0;
    // The place moves by the bytes of a block.
    while at < src.len() {
        let block = read_block(src, at, prev, epochs, counts)?;
        at = block.next;
        prev = block.last;
        n += block.n;
    }
    if n == 0 {
        return Err(fault(Refusal::WrongSize, src.len()));
    }
    Ok(n)
}
