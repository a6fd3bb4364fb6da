// The adding merge, with the Rust's names where it has them.
ghost use Rattle.std.specs.Prelude.{◌≡◌, true};
ghost use Rattle.records_spec.specs.Tables.{union};
ghost use Rattle.records_spec.specs.Inner.Tables.{Table, Above};
ghost use Rattle.records_spec.specs.Flags.{flags, flags_of, proper, holding};
ghost use Rattle.records_spec.specs.Answers.{shown, placing, flags_were, tables_were, tables_left, records_were};
ghost use Rattle.flags_spec.specs.Merging.{raised, raised_above, added};
ghost use Rattle.flags_spec.specs.Calls.{handed_on, combined_added, optional_combined_added};

use crate::owners::combine_owners;
use crate::placing::{hand_on, place_around, place_union};
use flags_spec::MergingOwnersStrategy;
use records_spec::{Head, OwnerId, Refusal};

// The union with an amount at the incoming base: it is added to our record there, or a record is made.
fn combine_with_higher_base_epoch(
    owner: Option<OwnerId>,
    base: u16,
    our_epochs: &[u16],
    our_counts: &[u32],
    epoch: u16,
    added_bytes: u32,
    their_epochs: &[u16],
    their_counts: &[u32],
    epochs: &mut [u16],
    counts: &mut [u32],
) -> Result<Option<Head>, Refusal>
    requires table { Table our_epochs.now our_counts.now }
    requires above { Above epoch their_epochs.now their_counts.now }
    ensures { let our_records = records_were our_epochs.now our_counts.now in
        let their_records = records_were their_epochs.now their_counts.now in
        let tables_lent = tables_were epochs.old counts.old in
        let joined_flags = flags base owner (union our_records their_records) in
        shown result (tables_left epochs.new counts.new) ≡ placing (raised epoch added_bytes joined_flags) tables_lent }
{
    let spot = records::look_up(our_epochs, our_counts, epoch);
    let Some(count) = spot.count.checked_add(added_bytes) else {
        return Err(Refusal::Overflow);
    };
    place_around(
        owner,
        base,
        our_epochs,
        our_counts,
        spot,
        epoch,
        count,
        their_epochs,
        their_counts,
        epochs,
        counts,
    )
}

// The union of ours and theirs, and the amount where the incoming base is higher than ours.
fn combine_tables(
    owner: Option<OwnerId>,
    base: u16,
    our_epochs: &[u16],
    our_counts: &[u32],
    epoch: u16,
    added_bytes: u32,
    their_epochs: &[u16],
    their_counts: &[u32],
    epochs: &mut [u16],
    counts: &mut [u32],
) -> Result<Option<Head>, Refusal>
    requires table { Table our_epochs.now our_counts.now }
    requires above { Above epoch their_epochs.now their_counts.now }
    ensures { let our_records = records_were our_epochs.now our_counts.now in
        let their_records = records_were their_epochs.now their_counts.now in
        let tables_lent = tables_were epochs.old counts.old in
        let joined_flags = flags base owner (union our_records their_records) in
        shown result (tables_left epochs.new counts.new) ≡ placing (raised_above base epoch added_bytes joined_flags) tables_lent }
{
    if base == epoch {
        place_union(
            owner,
            base,
            our_epochs,
            our_counts,
            their_epochs,
            their_counts,
            epochs,
            counts,
        )
    } else {
        combine_with_higher_base_epoch(
            owner,
            base,
            our_epochs,
            our_counts,
            epoch,
            added_bytes,
            their_epochs,
            their_counts,
            epochs,
            counts,
        )
    }
}

// Merges proper flags: the bases decide first, then the owners.
fn combine_added_proper(
    ours: Head,
    our_epochs: &[u16],
    our_counts: &[u32],
    theirs: Head,
    their_epochs: &[u16],
    their_counts: &[u32],
    added_bytes: u32,
    strategy: MergingOwnersStrategy,
    epochs: &mut [u16],
    counts: &mut [u32],
) -> Result<Option<Head>, Refusal>
    requires our_counts_value { proper (holding ours our_epochs.now our_counts.now) ≡ true }
    requires their_counts_value { proper (holding theirs their_epochs.now their_counts.now) ≡ true }
    ensures { let our_flags = flags_were ours our_epochs.now our_counts.now in
        let their_flags = flags_were theirs their_epochs.now their_counts.now in
        let tables_lent = tables_were epochs.old counts.old in
        shown result (tables_left epochs.new counts.new) ≡ placing (added strategy added_bytes (flags_of our_flags) (flags_of their_flags)) tables_lent }
{
    if theirs.base < ours.base {
        return Err(Refusal::DifferentBaseEpoch);
    }
    let owner = combine_owners(ours, theirs, strategy)?;
    combine_tables(
        owner,
        ours.base,
        &our_epochs[..ours.records],
        &our_counts[..ours.records],
        theirs.base,
        added_bytes,
        &their_epochs[..theirs.records],
        &their_counts[..theirs.records],
        epochs,
        counts,
    )
}

// Merges ours with the incoming flags that came with added bytes.
pub fn combine_added_bytes(
    ours: Head,
    our_epochs: &[u16],
    our_counts: &[u32],
    theirs: Head,
    their_epochs: &[u16],
    their_counts: &[u32],
    added_bytes: u32,
    strategy: MergingOwnersStrategy,
    epochs: &mut [u16],
    counts: &mut [u32],
) -> Result<Option<Head>, Refusal>
    ensures { let our_flags = flags_were ours our_epochs.now our_counts.now in
        let their_flags = flags_were theirs their_epochs.now their_counts.now in
        let tables_lent = tables_were epochs.old counts.old in
        shown result (tables_left epochs.new counts.new) ≡ combined_added our_flags their_flags added_bytes strategy tables_lent }
{
    if records::is_proper(ours, our_epochs, our_counts)
        && records::is_proper(theirs, their_epochs, their_counts)
    {
        combine_added_proper(
            ours,
            our_epochs,
            our_counts,
            theirs,
            their_epochs,
            their_counts,
            added_bytes,
            strategy,
            epochs,
            counts,
        )
    } else {
        Err(Refusal::BadTable)
    }
}

// Hands the incoming flags on, where ours is absent.
pub fn combine_absent(
    theirs: Head,
    their_epochs: &[u16],
    their_counts: &[u32],
    epochs: &mut [u16],
    counts: &mut [u32],
) -> Result<Option<Head>, Refusal>
    ensures { shown result (tables_left epochs.new counts.new) ≡ handed_on (flags_were theirs their_epochs.now their_counts.now) (tables_were epochs.old counts.old) }
{
    if records::is_proper(theirs, their_epochs, their_counts) {
        hand_on(theirs, their_epochs, their_counts, epochs, counts)
    } else {
        Err(Refusal::BadTable)
    }
}

// `combine_added_bytes` where ours may be absent: then ours is not looked at, and the incoming flags are handed on.
pub fn optional_combine_added_bytes(
    present: bool,
    ours: Head,
    our_epochs: &[u16],
    our_counts: &[u32],
    theirs: Head,
    their_epochs: &[u16],
    their_counts: &[u32],
    added_bytes: u32,
    strategy: MergingOwnersStrategy,
    epochs: &mut [u16],
    counts: &mut [u32],
) -> Result<Option<Head>, Refusal>
    ensures { let our_flags = flags_were ours our_epochs.now our_counts.now in
        let their_flags = flags_were theirs their_epochs.now their_counts.now in
        let tables_lent = tables_were epochs.old counts.old in
        shown result (tables_left epochs.new counts.new) ≡ optional_combined_added present our_flags their_flags added_bytes strategy tables_lent }
{
    if present {
        combine_added_bytes(
            ours,
            our_epochs,
            our_counts,
            theirs,
            their_epochs,
            their_counts,
            added_bytes,
            strategy,
            epochs,
            counts,
        )
    } else {
        combine_absent(theirs, their_epochs, their_counts, epochs, counts)
    }
}
