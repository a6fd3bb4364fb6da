// The list of changes. Lines that have no room are counted and not written, so that one pass tells how many there are and another
// writes them.
ghost use Rattle.std.specs.Prelude.{◌≡◌, not, [], ◌∷◌, ◌+◌, ◌≤◌, ◌<◌, ltb, eqb, length, set};
ghost use Rattle.repair_spec.specs.Changes.{line, line_if, kept_lines, record_lines, dropped};
ghost use Rattle.repair_spec.specs.Repairing.{lines_of};
ghost use Rattle.repair_spec.specs.Inner.Steps.{old_of, higher, lines_from, Listed, Settled};
ghost use Rattle.repair_spec.specs.Limits.{all_epochs};

use crate::change::change_number;
use records_spec::Kind;
use repair_reading::read_old;
use repair_spec::{Behind, Change, GotOld};

// Puts a value at the place k of a column, if there is room.
fn put<T: Copy>(column: &mut [T], k: usize, value: T)
    ensures { column.new ≡ set column.old k value }
{
    if k < column.len() {
        column[k] = value;
    }
}

// Lists a line at the place k; answers the place behind it.
fn list_line(
    at: usize,
    change: Change,
    offsets: &mut [usize],
    changes: &mut [u8],
    k: usize,
) -> usize
    requires { k + 1 < 18446744073709551616 }
    ensures { Listed (line at change ∷ []) k result offsets.old changes.old offsets.new changes.new }
{
    put(offsets, k, at);
    put(changes, k, change_number(change));
    k + 1
}

// The same where there is a line.
fn list_line_if(
    there: bool,
    at: usize,
    change: Change,
    offsets: &mut [usize],
    changes: &mut [u8],
    k: usize,
) -> usize
    requires { k + 1 < 18446744073709551616 }
    ensures { Listed (line_if there at change) k result offsets.old changes.old offsets.new changes.new }
{
    if there {
        list_line(at, change, offsets, changes, k)
    } else {
        k
    }
}

// Lists the lines of a kept record: it ends before the place `next`, and kept ones before it have epochs up to `highest`.
fn list_kept(
    at: usize,
    epoch: u16,
    count: u32,
    next: usize,
    highest: u16,
    offsets: &mut [usize],
    changes: &mut [u8],
    k: usize,
) -> usize
    requires { (at ≤ next) × (k + 2 < 18446744073709551616) }
    ensures { let old_record = old_of at epoch count next in
        Listed (kept_lines (ltb epoch highest) old_record) k result offsets.old changes.old offsets.new changes.new }
{
    let is_longer = 2 + fields::varint_len(count) < next - at;
    let is_moved = epoch < highest;
    let behind = list_line_if(is_longer, at, Change::ReEncoded, offsets, changes, k);
    list_line_if(is_moved, at, Change::Moved, offsets, changes, behind)
}

// Lists the lines of a record whose count fits; the one that stands at its epoch is at `standing`.
fn list_fitting(
    at: usize,
    epoch: u16,
    count: u32,
    next: usize,
    base: u16,
    standing: usize,
    highest: u16,
    offsets: &mut [usize],
    changes: &mut [u8],
    k: usize,
) -> Behind
    requires { (at ≤ next) × (k + 2 < 18446744073709551616) }
    ensures fact { let old_record = old_of at epoch count next in
        Listed (record_lines (dropped base (not (eqb standing at)) old_record) (ltb epoch highest) old_record) k result.k offsets.old
        changes.old offsets.new changes.new }
    ensures highest_value { result.highest ≡ higher (dropped base (not (eqb standing at)) (old_of at epoch count next)) (old_of at epoch count next) highest }
{
    if epoch <= base {
        let behind = list_line(at, Change::NotAboveBase, offsets, changes, k);
        Behind { k: behind, highest }
    } else if standing == at {
        let behind = list_kept(at, epoch, count, next, highest, offsets, changes, k);
        Behind {
            k: behind,
            highest: epoch.max(highest),
        }
    } else {
        let behind = list_line(at, Change::Replaced, offsets, changes, k);
        Behind { k: behind, highest }
    }
}

// Lists the lines of all records from `start` on, and the tail where it is cut; `places` has the record that stands at each epoch.
fn list_records(
    src: &[u8],
    start: usize,
    base: u16,
    places: &[usize],
    offsets: &mut [usize],
    changes: &mut [u8],
    from: usize,
) -> usize
    requires { (from ≤ start) × (start ≤ length src.now) × (all_epochs ≤ length places.now) }
    ensures { Listed (lines_from base places.now 0 start src.now) from result offsets.old changes.old offsets.new changes.new }
{
    let mut at = start;
    let mut highest = 0;
    let mut k = from;
    // No `for`: the place moves by the bytes that were read.
    while at < src.len() {
        match read_old(src, at) {
            GotOld::Cut => return list_line(at, Change::TailCut, offsets, changes, k),
            GotOld::TooLarge { next } => {
                k = list_line(at, Change::TooLarge, offsets, changes, k);
                at = next;
            }
            GotOld::Fits { epoch, count, next } => {
                let standing = places[epoch as usize];
                let behind = list_fitting(
                    at, epoch, count, next, base, standing, highest, offsets, changes, k,
                );
                k = behind.k;
                highest = behind.highest;
                at = next;
            }
        }
    }
    k
}

// Lists all changes of bytes of a kind, of which so many records are left; answers how many lines there are.
pub fn list_changes(
    kind: Kind,
    src: &[u8],
    places: &[usize],
    records: usize,
    offsets: &mut [usize],
    changes: &mut [u8],
) -> usize
    requires { Settled kind src.now places.now records }
    ensures { Listed (lines_of kind src.now) 0 result offsets.old changes.old offsets.new changes.new }
{
    let start = codec::head_size(kind);
    if records::is_multi(kind) {
        let base = codec::base_in(kind, src);
        let is_empty = records == 0;
        let from = list_line_if(is_empty, 0, Change::KindChanged, offsets, changes, 0);
        list_records(src, start, base, places, offsets, changes, from)
    } else {
        let is_longer = start < src.len();
        list_line_if(is_longer, start, Change::TailCut, offsets, changes, 0)
    }
}
