// Putting the records of an answer into the lent tables, where they have room.
ghost use Rattle.std.specs.Prelude.{◌≡◌, true, ◌∷◌, ◌+◌, ◌≤◌, length, drop};
ghost use Rattle.records_spec.specs.Tables.{◌⦂◌, union};
ghost use Rattle.records_spec.specs.Inner.Tables.{Table, Above};
ghost use Rattle.records_spec.specs.Inner.Unions.{spot_of};
ghost use Rattle.records_spec.specs.Flags.{flags, flags_of, proper, holding};
ghost use Rattle.records_spec.specs.Answers.{shown, room_for, placing, flags_were, tables_were, tables_left, records_were};
ghost use Rattle.records_spec.specs.Outcomes.{ok};

use records::fit;
use records_spec::{Head, OwnerId, Refusal, Spot};

// Whether `before` records and the union of what stands from i on in ours with theirs have room. They are counted only where
// the room is not surely enough.
fn union_fits(
    before: usize,
    our_epochs: &[u16],
    our_counts: &[u32],
    i: usize,
    their_epochs: &[u16],
    their_counts: &[u32],
    epochs_len: usize,
    counts_len: usize,
) -> bool
    requires table { Table our_epochs.now our_counts.now }
    requires table_2 { Table their_epochs.now their_counts.now }
    requires before_bound { (before ≤ i + 1) × (i ≤ length our_epochs.now) }
    ensures { let our_records = records_were our_epochs.now our_counts.now in
        let their_records = records_were their_epochs.now their_counts.now in
        result ≡ room_for (before + length (union (drop i our_records) their_records)) epochs_len counts_len }
{
    let most = before + (our_epochs.len() - i) + their_epochs.len();
    fit(most, epochs_len, counts_len)
        || fit(
            before + records::union_len(our_epochs, our_counts, i, their_epochs, their_counts, 0),
            epochs_len,
            counts_len,
        )
}

// Flags with the union of ours and theirs.
pub fn place_union(
    owner: Option<OwnerId>,
    base: u16,
    our_epochs: &[u16],
    our_counts: &[u32],
    their_epochs: &[u16],
    their_counts: &[u32],
    epochs: &mut [u16],
    counts: &mut [u32],
) -> Result<Option<Head>, Refusal>
    requires table { Table our_epochs.now our_counts.now }
    requires table_2 { Table their_epochs.now their_counts.now }
    ensures { let our_records = records_were our_epochs.now our_counts.now in
        let their_records = records_were their_epochs.now their_counts.now in
        let tables_lent = tables_were epochs.old counts.old in
        let joined_flags = flags base owner (union our_records their_records) in
        shown result (tables_left epochs.new counts.new) ≡ placing (ok joined_flags) tables_lent }
{
    if !union_fits(
        0,
        our_epochs,
        our_counts,
        0,
        their_epochs,
        their_counts,
        epochs.len(),
        counts.len(),
    ) {
        return Err(Refusal::NoRoom);
    }
    let n = records::union_into(
        our_epochs,
        our_counts,
        0,
        their_epochs,
        their_counts,
        0,
        epochs,
        counts,
        0,
    );
    Ok(Some(records::new_head(base, owner, n)))
}

// Flags with the union of ours, one record, and theirs, which are above its epoch: ours below it are copied, the record is
// placed, and the rest is joined.
pub fn place_around(
    owner: Option<OwnerId>,
    base: u16,
    our_epochs: &[u16],
    our_counts: &[u32],
    spot: Spot,
    epoch: u16,
    count: u32,
    their_epochs: &[u16],
    their_counts: &[u32],
    epochs: &mut [u16],
    counts: &mut [u32],
) -> Result<Option<Head>, Refusal>
    requires table { Table our_epochs.now our_counts.now }
    requires spot_value { spot ≡ spot_of epoch our_epochs.now our_counts.now }
    requires above { Above epoch their_epochs.now their_counts.now }
    ensures { let our_records = records_were our_epochs.now our_counts.now in
        let their_records = epoch ⦂ count ∷ records_were their_epochs.now their_counts.now in
        let joined_flags = flags base owner (union our_records their_records) in
        shown result (tables_left epochs.new counts.new) ≡ placing (ok joined_flags) (tables_were epochs.old counts.old) }
{
    let Spot { below, upto, .. } = spot;
    if !union_fits(
        below + 1,
        our_epochs,
        our_counts,
        upto,
        their_epochs,
        their_counts,
        epochs.len(),
        counts.len(),
    ) {
        return Err(Refusal::NoRoom);
    }
    records::copy_records(our_epochs, our_counts, below, epochs, counts);
    epochs[below] = epoch;
    counts[below] = count;
    let n = records::union_into(
        our_epochs,
        our_counts,
        upto,
        their_epochs,
        their_counts,
        0,
        epochs,
        counts,
        below + 1,
    );
    Ok(Some(records::new_head(base, owner, n)))
}

// Proper flags handed on as they are.
pub fn hand_on(
    flags: Head,
    from_epochs: &[u16],
    from_counts: &[u32],
    epochs: &mut [u16],
    counts: &mut [u32],
) -> Result<Option<Head>, Refusal>
    requires { proper (holding flags from_epochs.now from_counts.now) ≡ true }
    ensures { let from_flags = flags_were flags from_epochs.now from_counts.now in
        let tables_lent = tables_were epochs.old counts.old in
        shown result (tables_left epochs.new counts.new) ≡ placing (ok (flags_of from_flags)) tables_lent }
{
    let n = flags.records;
    if !fit(n, epochs.len(), counts.len()) {
        return Err(Refusal::NoRoom);
    }
    records::copy_records(from_epochs, from_counts, n, epochs, counts);
    Ok(Some(records::new_head(flags.base, records::owner_id(flags), n)))
}
