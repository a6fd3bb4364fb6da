// Putting what remains of a union after the sections into the lent tables, where they have room.
ghost use Rattle.std.specs.Prelude.{◌≡◌, ◌≤◌, length};
ghost use Rattle.records_spec.specs.Tables.{records_of, union};
ghost use Rattle.records_spec.specs.Inner.Tables.{Table, Placed};
ghost use Rattle.records_spec.specs.Flags.{flags};
ghost use Rattle.records_spec.specs.Answers.{shown, room_for, placing, tables_were, tables_left, records_were};
ghost use Rattle.records_spec.specs.Outcomes.{ok};
ghost use Rattle.removal_spec.specs.Removing.{minus};

use crate::sections::remove_from;
use records_spec::{Head, OwnerId, Refusal};

// How many records remain.
fn remaining_len(
    our_epochs: &[u16],
    our_counts: &[u32],
    their_epochs: &[u16],
    their_counts: &[u32],
    removed_epochs: &[u16],
    removed_bytes: &[u32],
) -> usize
    requires table { Table our_epochs.now our_counts.now }
    requires table_2 { Table their_epochs.now their_counts.now }
    requires table_3 { Table removed_epochs.now removed_bytes.now }
    ensures { let our_records = records_were our_epochs.now our_counts.now in
        let their_records = records_were their_epochs.now their_counts.now in
        let sections_removed = records_were removed_epochs.now removed_bytes.now in
        result ≡ length (minus (union our_records their_records) sections_removed) }
{
    let end = our_epochs.len() + their_epochs.len();
    let mut a: usize = 0;
    let mut b: usize = 0;
    let mut n: usize = 0;
    // A `while`: the places in both tables move by what the next record took.
    while a + b < end {
        let next = records::next_record(our_epochs, our_counts, a, their_epochs, their_counts, b);
        if remove_from(removed_epochs, removed_bytes, next.epoch, next.count).is_some() {
            n += 1;
        }
        a = next.i;
        b = next.j;
    }
    n
}

// Whether what remains has room. It is counted only where the room is not surely enough.
fn remaining_fits(
    our_epochs: &[u16],
    our_counts: &[u32],
    their_epochs: &[u16],
    their_counts: &[u32],
    removed_epochs: &[u16],
    removed_bytes: &[u32],
    epochs_len: usize,
    counts_len: usize,
) -> bool
    requires table { Table our_epochs.now our_counts.now }
    requires table_2 { Table their_epochs.now their_counts.now }
    requires table_3 { Table removed_epochs.now removed_bytes.now }
    ensures { let our_records = records_were our_epochs.now our_counts.now in
        let their_records = records_were their_epochs.now their_counts.now in
        let sections_removed = records_were removed_epochs.now removed_bytes.now in
        result ≡ room_for (length (minus (union our_records their_records) sections_removed)) epochs_len counts_len }
{
    let most = our_epochs.len() + their_epochs.len();
    records::fit(most, epochs_len, counts_len)
        || records::fit(
            remaining_len(
                our_epochs,
                our_counts,
                their_epochs,
                their_counts,
                removed_epochs,
                removed_bytes,
            ),
            epochs_len,
            counts_len,
        )
}

// Puts what remains into the two tables lent for it; answers the place behind it.
fn remaining_into(
    our_epochs: &[u16],
    our_counts: &[u32],
    their_epochs: &[u16],
    their_counts: &[u32],
    removed_epochs: &[u16],
    removed_bytes: &[u32],
    epochs: &mut [u16],
    counts: &mut [u32],
) -> usize
    requires table { Table our_epochs.now our_counts.now }
    requires table_2 { Table their_epochs.now their_counts.now }
    requires table_3 { Table removed_epochs.now removed_bytes.now }
    requires sections_removed_in_bounds { let our_records = records_of our_epochs.now our_counts.now in
        let their_records = records_of their_epochs.now their_counts.now in
        let sections_removed = records_of removed_epochs.now removed_bytes.now in
        length (minus (union our_records their_records) sections_removed) ≤ length epochs.old }
    requires sections_removed_in_bounds_2 { let our_records = records_of our_epochs.now our_counts.now in
        let their_records = records_of their_epochs.now their_counts.now in
        let sections_removed = records_of removed_epochs.now removed_bytes.now in
        length (minus (union our_records their_records) sections_removed) ≤ length counts.old }
    ensures { let our_records = records_were our_epochs.now our_counts.now in
        let their_records = records_were their_epochs.now their_counts.now in
        let sections_removed = records_were removed_epochs.now removed_bytes.now in
        Placed (minus (union our_records their_records) sections_removed) 0 result epochs.old counts.old epochs.new counts.new }
{
    let end = our_epochs.len() + their_epochs.len();
    let mut a: usize = 0;
    let mut b: usize = 0;
    let mut k: usize = 0;
    // A `while`: the places in both tables move by what the next record took.
    while a + b < end {
        let next = records::next_record(our_epochs, our_counts, a, their_epochs, their_counts, b);
        if let Some(count) = remove_from(removed_epochs, removed_bytes, next.epoch, next.count) {
            epochs[k] = next.epoch;
            counts[k] = count;
            k += 1;
        }
        a = next.i;
        b = next.j;
    }
    k
}

// Flags with what remains.
pub fn place_remaining(
    owner: Option<OwnerId>,
    base: u16,
    our_epochs: &[u16],
    our_counts: &[u32],
    their_epochs: &[u16],
    their_counts: &[u32],
    removed_epochs: &[u16],
    removed_bytes: &[u32],
    epochs: &mut [u16],
    counts: &mut [u32],
) -> Result<Option<Head>, Refusal>
    requires table { Table our_epochs.now our_counts.now }
    requires table_2 { Table their_epochs.now their_counts.now }
    requires table_3 { Table removed_epochs.now removed_bytes.now }
    ensures { let our_records = records_were our_epochs.now our_counts.now in
        let their_records = records_were their_epochs.now their_counts.now in
        let sections_removed = records_were removed_epochs.now removed_bytes.now in
        let tables_lent = tables_were epochs.old counts.old in
        shown result (tables_left epochs.new counts.new)
        ≡ placing (ok (flags base owner (minus (union our_records their_records) sections_removed))) tables_lent }
{
    if remaining_fits(
        our_epochs,
        our_counts,
        their_epochs,
        their_counts,
        removed_epochs,
        removed_bytes,
        epochs.len(),
        counts.len(),
    ) {
        let n = remaining_into(
            our_epochs,
            our_counts,
            their_epochs,
            their_counts,
            removed_epochs,
            removed_bytes,
            epochs,
            counts,
        );
        Ok(Some(records::new_head(base, owner, n)))
    } else {
        Err(Refusal::NoRoom)
    }
}
