// What a union is joined from: the next of two records, found without a branch, and runs of records.
ghost use Rattle.std.specs.Prelude.{◌≡◌, true, ◌+◌, ◌≤◌, ◌<◌, length, drop};
ghost use Rattle.records_spec.specs.Answers.{records_were};
ghost use Rattle.fields_spec.specs.Inner.Selects.{Selected};
ghost use Rattle.records_spec.specs.Tables.{records_of, rising};
ghost use Rattle.records_spec.specs.Inner.Tables.{Placed};
ghost use Rattle.records_spec.specs.Inner.Runs.{stretch, lead, RoomFrom};

use crate::table::find;

// The count that stands at the lesser of two epochs: ours where our epoch is below theirs, and else theirs. Which one it is cannot be
// foreseen, so no branch shall depend on it: in a function as small as this one, or the next, an `if` becomes a conditional move.
pub fn standing(ours: u16, theirs: u16, our_count: u32, their_count: u32) -> u32
    ensures { Selected ours theirs our_count their_count result }
{
    if ours < theirs {
        our_count
    } else {
        their_count
    }
}

// The place after i where the epoch x of the record at i is at most y, so that the record is passed; else i.
pub fn upto(x: u16, y: u16, i: usize) -> usize
    requires { i < usize.MAX }
    ensures { Selected y x i (i + 1) result }
{
    if x <= y { i + 1 } else { i }
}

// Copies the records from the place i up to the place `end` into the two tables lent for them, from the place `at` on; answers
// the place behind them. A loop of this shape can become vector code, and costs a short run less than two calls of `copy_from_slice`.
#[tactic(auto, using(crate::proofs::Runs::run_long))]
pub fn copy_run(
    from_epochs: &[u16],
    from_counts: &[u32],
    i: usize,
    end: usize,
    epochs: &mut [u16],
    counts: &mut [u32],
    at: usize,
) -> usize
    requires end_in_bounds { (end ≤ length from_epochs.now) × (end ≤ length from_counts.now) }
    requires room_from { RoomFrom (stretch i end (records_of from_epochs.now from_counts.now)) at epochs.old counts.old }
    ensures { Placed (stretch i end (records_were from_epochs.now from_counts.now)) at result epochs.old counts.old epochs.new counts.new }
{
    let mut k = at;
    for a in i..end {
        epochs[k] = from_epochs[a];
        counts[k] = from_counts[a];
        k += 1;
    }
    k
}

// The place behind those of ours from i on that are below theirs from j on: they come first in the union, as one run.
pub fn lead_end(our_epochs: &[u16], i: usize, their_epochs: &[u16], j: usize) -> usize
    requires our_epochs_value { rising our_epochs.now ≡ true }
    requires i_in_bounds { i ≤ length our_epochs.now }
    ensures { result ≡ i + lead (drop i our_epochs.now) (drop j their_epochs.now) }
{
    match their_epochs.get(j) {
        Some(first) => i + find(&our_epochs[i..], *first),
        None => our_epochs.len(),
    }
}
