// Reading records in two passes: all are judged, and then read once more into the lent tables.
ghost use Rattle.std.specs.Prelude.{◌≡◌, ◌+◌, ◌≤◌, ◌<◌, length, drop};
ghost use Rattle.records_spec.specs.Inner.Tables.{Placed};
ghost use Rattle.codec_spec.specs.Reading.{parse};
ghost use Rattle.codec_spec.specs.Inner.Blocks.{block_records, Sound, filled, filled_from};

use crate::block::judge_records;
use crate::record::fault;
use codec_spec::Fault;
use records_spec::Refusal;

// Puts the n records from `start` on into the two tables from the place k on; answers the place behind them.
fn fill_records(
    src: &[u8],
    start: usize,
    n: usize,
    epochs: &mut [u16],
    counts: &mut [u32],
    k: usize,
) -> usize
    requires sound { Sound src.now start n }
    requires n_in_bounds { (k + n ≤ length epochs.old) × (k + n ≤ length counts.old) }
    ensures { (s : Sound src.now start n)
        → Placed (parse start 0 s.before (drop start src.now)).records k result epochs.old counts.old epochs.new counts.new }
{
    let end = k + n;
    let mut at = start;
    for i in k..end {
        let epoch = fields::be16_at(src, at);
        let varint = fields::varint_at(src, at + 2);
        epochs[i] = epoch;
        counts[i] = varint.count;
        at = varint.next;
    }
    end
}

// Reads the records from `at` on, after one at the epoch `prev`, and puts them into the lent tables from the place k on. The last two
// tables are room for a block.
pub fn read_twice(
    src: &[u8],
    at: usize,
    prev: u16,
    k: usize,
    epochs: &mut [u16],
    counts: &mut [u32],
    block_epochs: &mut [u16],
    block_counts: &mut [u32],
) -> Result<usize, Fault>
    requires k_le_at { (k ≤ at) × (at < length src.now) }
    requires block_records_in_bounds { (block_records ≤ length block_epochs.old) × (block_records ≤ length block_counts.old) }
    ensures { let parsed = parse at 0 prev (drop at src.now) in
        filled result epochs.new counts.new ≡ filled_from (length src.now) k parsed.fault parsed.records epochs.old counts.old }
{
    let n = judge_records(src, at, prev, block_epochs, block_counts)?;
    if records::fit(k + n, epochs.len(), counts.len()) {
        Ok(fill_records(src, at, n, epochs, counts, k))
    } else {
        Err(fault(Refusal::NoRoom, src.len()))
    }
}
