// The two tables of records: place i of the one holds an epoch, place i of the other its count.
ghost use Rattle.std.specs.Prelude.{◌≡◌, true, ◌+◌, ◌≤◌, ◌<◌, length, take, drop};
ghost use Rattle.records_spec.specs.Answers.{flags_were, records_were};
ghost use Rattle.records_spec.specs.Tables.{records_of, ascending, rising, place_of, union, without, over};
ghost use Rattle.records_spec.specs.Inner.Tables.{Table, Placed};
ghost use Rattle.records_spec.specs.Inner.Unions.{InBoth, Stepped, spot_of};
ghost use Rattle.records_spec.specs.Flags.{agrees, proper};

use crate::head::is_multi;
use crate::joining::{copy_run, lead_end, standing, upto};
use records_spec::{Head, Kind, NextRecord, Spot};

// Whether the epochs ascend strictly and are all above the base. No early exit: a loop of this shape can become vector code.
pub fn ascend(base: u16, epochs: &[u16]) -> bool
    ensures { result ≡ ascending base epochs.now }
{
    let mut good = true;
    let mut prev = base;
    for epoch in epochs {
        good &= prev < *epoch;
        prev = *epoch;
    }
    good
}

// Whether a kind goes with a number of records.
fn agree(kind: Kind, records: usize) -> bool
    ensures { result ≡ agrees kind records }
{
    is_multi(kind) == (1 <= records)
}

// Whether a head and its tables are proper flags.
#[tactic(auto, unfolding(records_spec::specs::Flags::proper))]
pub fn is_proper(head: Head, epochs: &[u16], counts: &[u32]) -> bool
    ensures { result ≡ proper (flags_were head epochs.now counts.now) }
{
    let n = head.records;
    agree(head.kind, n) && n <= epochs.len() && n <= counts.len() && ascend(head.base, &epochs[..n])
}

// The place of an epoch: where its record stands, or where it would stand.
pub fn find(epochs: &[u16], epoch: u16) -> usize
    requires { rising epochs.now ≡ true }
    ensures { result ≡ place_of epoch epochs.now }
{
    epochs.partition_point(|x| *x < epoch)
}

// Looks up an epoch.
pub fn look_up(epochs: &[u16], counts: &[u32], epoch: u16) -> Spot
    requires { Table epochs.now counts.now }
    ensures { result ≡ spot_of epoch epochs.now counts.now }
{
    let below = find(epochs, epoch);
    if below < epochs.len() && epochs[below] == epoch {
        Spot {
            below,
            upto: below + 1,
            count: counts[below],
        }
    } else {
        Spot {
            below,
            upto: below,
            count: 0,
        }
    }
}

// Copies the first n records into the two tables lent for them.
pub fn copy_records(
    from_epochs: &[u16],
    from_counts: &[u32],
    n: usize,
    epochs: &mut [u16],
    counts: &mut [u32],
)
    requires n_in_bounds { (n ≤ length from_epochs.now) × (n ≤ length from_counts.now) }
    requires n_in_bounds_2 { (n ≤ length epochs.old) × (n ≤ length counts.old) }
    ensures { Placed (take n (records_were from_epochs.now from_counts.now)) 0 n epochs.old counts.old epochs.new counts.new }
{
    copy_run(from_epochs, from_counts, 0, n, epochs, counts, 0);
}

// The next record of the union of what stands from i on in ours and from j on in theirs. Where both have one it is found without
// a branch.
#[tactic(auto, using(records_spec::proofs::Tables::length_records_of))]
pub fn next_record(
    our_epochs: &[u16],
    our_counts: &[u32],
    i: usize,
    their_epochs: &[u16],
    their_counts: &[u32],
    j: usize,
) -> NextRecord
    requires table { Table our_epochs.now our_counts.now }
    requires table_2 { Table their_epochs.now their_counts.now }
    requires in_both { InBoth (records_of our_epochs.now our_counts.now) (records_of their_epochs.now their_counts.now) i j }
    ensures { Stepped (records_were our_epochs.now our_counts.now) (records_were their_epochs.now their_counts.now) i j result }
{
    if their_epochs.len() <= j {
        NextRecord {
            epoch: our_epochs[i],
            count: our_counts[i],
            i: i + 1,
            j,
        }
    } else if our_epochs.len() <= i {
        NextRecord {
            epoch: their_epochs[j],
            count: their_counts[j],
            i,
            j: j + 1,
        }
    } else {
        let ours = our_epochs[i];
        let theirs = their_epochs[j];
        NextRecord {
            epoch: theirs.min(ours),
            count: standing(ours, theirs, our_counts[i], their_counts[j]),
            i: upto(ours, theirs, i),
            j: upto(theirs, ours, j),
        }
    }
}

// The number of records of the union of what stands from i on in ours and from j on in theirs.
pub fn union_len(
    our_epochs: &[u16],
    our_counts: &[u32],
    i: usize,
    their_epochs: &[u16],
    their_counts: &[u32],
    j: usize,
) -> usize
    requires table { Table our_epochs.now our_counts.now }
    requires table_2 { Table their_epochs.now their_counts.now }
    requires i_in_bounds { (i ≤ length our_epochs.now) × (j ≤ length their_epochs.now) }
    ensures { result ≡ length (union (drop i (records_were our_epochs.now our_counts.now)) (drop j (records_were their_epochs.now their_counts.now))) }
{
    let end = our_epochs.len() + their_epochs.len();
    let mut a = i;
    let mut b = j;
    let mut n = 0;
    // Two places move, by what the next record passes, so no range gives them.
    while a + b < end {
        let next = next_record(our_epochs, our_counts, a, their_epochs, their_counts, b);
        a = next.i;
        b = next.j;
        n += 1;
    }
    n
}

// Puts that union into the two tables lent for it, from the place `at` on; answers the place behind it. Ours that are below all
// of theirs go first and are copied as one run, and so is what is left of one side where the other is passed.
#[tactic(auto, using(records_spec::proofs::Tables::filling_room))]
pub fn union_into(
    our_epochs: &[u16],
    our_counts: &[u32],
    i: usize,
    their_epochs: &[u16],
    their_counts: &[u32],
    j: usize,
    epochs: &mut [u16],
    counts: &mut [u32],
    at: usize,
) -> usize
    requires table { Table our_epochs.now our_counts.now }
    requires table_2 { Table their_epochs.now their_counts.now }
    requires i_in_bounds { (i ≤ length our_epochs.now) × (j ≤ length their_epochs.now) }
    requires their_records_in_bounds { let our_records = records_of our_epochs.now our_counts.now in
        let their_records = records_of their_epochs.now their_counts.now in
        at + length (union (drop i our_records) (drop j their_records)) ≤ length epochs.old }
    requires their_records_in_bounds_2 { let our_records = records_of our_epochs.now our_counts.now in
        let their_records = records_of their_epochs.now their_counts.now in
        at + length (union (drop i our_records) (drop j their_records)) ≤ length counts.old }
    ensures { let our_records = records_were our_epochs.now our_counts.now in
        let their_records = records_were their_epochs.now their_counts.now in
        Placed (union (drop i our_records) (drop j their_records)) at result epochs.old counts.old epochs.new counts.new }
{
    let our_end = our_epochs.len();
    let their_end = their_epochs.len();
    let mut a = lead_end(our_epochs, i, their_epochs, j);
    let mut b = j;
    let mut k = copy_run(our_epochs, our_counts, i, a, epochs, counts, at);
    // Two places move, by what the next record passes, so no range gives them. The two tests stand apart, since one `&&` of both is slower.
    while a < our_end {
        if their_end <= b {
            return copy_run(our_epochs, our_counts, a, our_end, epochs, counts, k);
        }
        let next = next_record(our_epochs, our_counts, a, their_epochs, their_counts, b);
        epochs[k] = next.epoch;
        counts[k] = next.count;
        a = next.i;
        b = next.j;
        k += 1;
    }
    copy_run(their_epochs, their_counts, b, their_end, epochs, counts, k)
}

// Drops the record at a place of the first n: those behind it move down, and from the last place on all stays as it was.
pub fn drop_record(epochs: &mut [u16], counts: &mut [u32], n: usize, at: usize)
    requires { (at < n) × ((n ≤ length epochs.old) × (n ≤ length counts.old)) }
    ensures { (epochs.new ≡ over (without at (take n epochs.old)) epochs.old)
        × (counts.new ≡ over (without at (take n counts.old)) counts.old) }
{
    epochs.copy_within(at + 1..n, at);
    counts.copy_within(at + 1..n, at);
}
