// Reading records into the lent tables in one pass. A block of records is read into tables of its own, then all that stands behind it, and only
// where that is right and has room does the block go to the lent tables. So a refusal writes nothing, and no byte is read twice.
ghost use Rattle.std.specs.Prelude.{◌≡◌, ◌+◌, ◌≤◌, ◌<◌, length, take, drop};
ghost use Rattle.records_spec.specs.Answers.{records_were};
ghost use Rattle.codec_spec.specs.Reading.{parse};
ghost use Rattle.codec_spec.specs.Inner.Blocks.{filled, filled_from};

use crate::block::read_block;
use crate::record::fault;
use crate::two_passes::read_twice;
use codec_spec::{BLOCK_RECORDS, Fault};
use records_spec::Refusal;

// So many records are read in one pass: each block waits for those behind it in the machine's stack.
const ONE_PASS: usize = 16384;

// Puts the n records of the last block into the lent tables from the place k on, where all have room; the bytes end at `end`.
fn place_last(
    block_epochs: &[u16],
    block_counts: &[u32],
    n: usize,
    end: usize,
    epochs: &mut [u16],
    counts: &mut [u32],
    k: usize,
) -> Result<usize, Fault>
    requires n_in_bounds { (n ≤ length block_epochs.now) × (n ≤ length block_counts.now) }
    requires n_bound { k + n < 18446744073709551616 }
    ensures { let block_records = records_were block_epochs.now block_counts.now in
        filled result epochs.new counts.new ≡ filled_from end k None (take n block_records) epochs.old counts.old }
{
    if records::fit(k + n, epochs.len(), counts.len()) {
        Ok(records::copy_run(block_epochs, block_counts, 0, n, epochs, counts, k))
    } else {
        Err(fault(Refusal::NoRoom, end))
    }
}

// Reads the records from `at` on, after one at the epoch `prev`, and puts them into the lent tables from the place k on:
// where `ONE_PASS` stand before it, in two passes, else in one.
pub fn read_blocks(
    src: &[u8],
    at: usize,
    prev: u16,
    k: usize,
    epochs: &mut [u16],
    counts: &mut [u32],
) -> Result<usize, Fault>
    requires { (k ≤ at) × (at ≤ length src.now) × (1 ≤ k → at < length src.now) }
    ensures { let parsed = parse at 0 prev (drop at src.now) in
        filled result epochs.new counts.new ≡ filled_from (length src.now) k parsed.fault parsed.records epochs.old counts.old }
{
    let mut block_epochs = [0; BLOCK_RECORDS];
    let mut block_counts = [0; BLOCK_RECORDS];
    if ONE_PASS <= k {
        return read_twice(
            src,
            at,
            prev,
            k,
            epochs,
            counts,
            &mut block_epochs,
            &mut block_counts,
        );
    }
    let block = read_block(src, at, prev, &mut block_epochs, &mut block_counts)?;
    let n = block.n;
    if src.len() <= block.next {
        return place_last(
            &block_epochs,
            &block_counts,
            n,
            block.next,
            epochs,
            counts,
            k,
        );
    }
    let all = read_blocks(src, block.next, block.last, k + n, epochs, counts)?;
    records::copy_run(&block_epochs, &block_counts, 0, n, epochs, counts, k);
    Ok(all)
}
