// The removing merge, with the Rust's names where it has them.
ghost use Rattle.std.specs.Prelude.{◌≡◌, true};
ghost use Rattle.records_spec.specs.Tables.{union};
ghost use Rattle.records_spec.specs.Inner.Tables.{Table};
ghost use Rattle.records_spec.specs.Flags.{flags, flags_of, proper, holding};
ghost use Rattle.records_spec.specs.Answers.{shown, placing, flags_were, tables_were, tables_left, records_were};
ghost use Rattle.rows_spec.specs.Rows.{tables, rows_in, rows_were};
ghost use Rattle.rows_spec.specs.Inner.Rows.{Proper};
ghost use Rattle.rows_spec.specs.Removals.{sectioned, removal_in, holding_rows, proper_in};
ghost use Rattle.removal_spec.specs.Removing.{less_sections, taken, removed_above, removed_beside, removed as merged};
ghost use Rattle.removal_spec.specs.Calls.{combined_removed, optional_combined_removed};

use crate::remaining::place_remaining;
use crate::sections::{judge_sections, only_under};
use flags_spec::MergingOwnersStrategy;
use records_spec::{Head, OwnerId, Refusal};
use rows_spec::{Removed, StorageRemovedBytes};
use std::cmp::Ordering;

// The union less the sections, unless one is at fault.
fn remove_sections(
    owner: Option<OwnerId>,
    base: u16,
    our_epochs: &[u16],
    our_counts: &[u32],
    their_epochs: &[u16],
    their_counts: &[u32],
    removed_epochs: &[u16],
    removed_bytes: &[u32],
    epochs: &mut [u16],
    counts: &mut [u32],
) -> Result<Option<Head>, Refusal>
    requires table { Table our_epochs.now our_counts.now }
    requires table_2 { Table their_epochs.now their_counts.now }
    requires table_3 { Table removed_epochs.now removed_bytes.now }
    ensures { let sections_removed = records_were removed_epochs.now removed_bytes.now in
        let our_records = records_were our_epochs.now our_counts.now in
        let their_records = records_were their_epochs.now their_counts.now in
        let tables_lent = tables_were epochs.old counts.old in
        let joined_flags = flags base owner (union our_records their_records) in
        shown result (tables_left epochs.new counts.new) ≡ placing (less_sections sections_removed joined_flags) tables_lent }
{
    judge_sections(
        base,
        our_epochs,
        our_counts,
        their_epochs,
        their_counts,
        removed_epochs,
        removed_bytes,
    )?;
    place_remaining(
        owner,
        base,
        our_epochs,
        our_counts,
        their_epochs,
        their_counts,
        removed_epochs,
        removed_bytes,
        epochs,
        counts,
    )
}

// The union less the first n rows, unless they are not one identifier's alone.
fn remove_rows(
    owner: Option<OwnerId>,
    base: u16,
    our_epochs: &[u16],
    our_counts: &[u32],
    their_epochs: &[u16],
    their_counts: &[u32],
    id: OwnerId,
    n: usize,
    ids: &[[u8; 32]],
    removed_epochs: &[u16],
    removed_bytes: &[u32],
    epochs: &mut [u16],
    counts: &mut [u32],
) -> Result<Option<Head>, Refusal>
    requires table { Table our_epochs.now our_counts.now }
    requires table_2 { Table their_epochs.now their_counts.now }
    requires proper { Proper n (tables ids.now removed_epochs.now removed_bytes.now) }
    ensures { let removed_rows = rows_were ids.now removed_epochs.now removed_bytes.now in
        let our_records = records_were our_epochs.now our_counts.now in
        let their_records = records_were their_epochs.now their_counts.now in
        let tables_lent = tables_were epochs.old counts.old in
        let joined_flags = flags base owner (union our_records their_records) in
        shown result (tables_left epochs.new counts.new) ≡ placing (taken id (sectioned (rows_in n removed_rows)) joined_flags) tables_lent }
{
    if only_under(id, n, ids, removed_epochs, removed_bytes) {
        remove_sections(
            owner,
            base,
            our_epochs,
            our_counts,
            their_epochs,
            their_counts,
            &removed_epochs[..n],
            &removed_bytes[..n],
            epochs,
            counts,
        )
    } else {
        Err(Refusal::DifferentOwners)
    }
}

// The union less a removal, of which only rows are read.
fn remove_bytes(
    owner: Option<OwnerId>,
    base: u16,
    our_epochs: &[u16],
    our_counts: &[u32],
    their_epochs: &[u16],
    their_counts: &[u32],
    id: OwnerId,
    removed: Removed,
    ids: &[[u8; 32]],
    removed_epochs: &[u16],
    removed_bytes: &[u32],
    epochs: &mut [u16],
    counts: &mut [u32],
) -> Result<Option<Head>, Refusal>
    requires table { Table our_epochs.now our_counts.now }
    requires table_2 { Table their_epochs.now their_counts.now }
    requires removed_bytes_value { proper_in removed (tables ids.now removed_epochs.now removed_bytes.now) ≡ true }
    ensures { let removed_rows = rows_were ids.now removed_epochs.now removed_bytes.now in
        let our_records = records_were our_epochs.now our_counts.now in
        let their_records = records_were their_epochs.now their_counts.now in
        let tables_lent = tables_were epochs.old counts.old in
        let joined_flags = flags base owner (union our_records their_records) in
        shown result (tables_left epochs.new counts.new) ≡ placing (taken id (removal_in removed removed_rows) joined_flags) tables_lent }
{
    match removed {
        Removed::None | Removed::Basic(_) => flags::place_union(
            owner,
            base,
            our_epochs,
            our_counts,
            their_epochs,
            their_counts,
            epochs,
            counts,
        ),
        Removed::Sectioned(n) => remove_rows(
            owner,
            base,
            our_epochs,
            our_counts,
            their_epochs,
            their_counts,
            id,
            n,
            ids,
            removed_epochs,
            removed_bytes,
            epochs,
            counts,
        ),
    }
}

// Merges proper flags of one base epoch: the owner rule, then the union; the removal is not read.
fn combine_same_base_epoch(
    ours: Head,
    our_epochs: &[u16],
    our_counts: &[u32],
    theirs: Head,
    their_epochs: &[u16],
    their_counts: &[u32],
    strategy: MergingOwnersStrategy,
    epochs: &mut [u16],
    counts: &mut [u32],
) -> Result<Option<Head>, Refusal>
    requires our_counts_value { proper (holding ours our_epochs.now our_counts.now) ≡ true }
    requires their_counts_value { proper (holding theirs their_epochs.now their_counts.now) ≡ true }
    ensures { let our_flags = flags_were ours our_epochs.now our_counts.now in
        let their_flags = flags_were theirs their_epochs.now their_counts.now in
        let tables_lent = tables_were epochs.old counts.old in
        shown result (tables_left epochs.new counts.new) ≡ placing (removed_beside strategy (flags_of our_flags) (flags_of their_flags)) tables_lent }
{
    let owner = flags::combine_owners(ours, theirs, strategy)?;
    flags::place_union(
        owner,
        ours.base,
        &our_epochs[..ours.records],
        &our_counts[..ours.records],
        &their_epochs[..theirs.records],
        &their_counts[..theirs.records],
        epochs,
        counts,
    )
}

// Merges proper flags where the incoming base is higher: ours without records comes back, whoever the owners are. The merged owner is the
// answer's, our owner finds the sections.
fn combine_with_higher_base_epoch_remove_bytes(
    ours: Head,
    our_epochs: &[u16],
    our_counts: &[u32],
    theirs: Head,
    their_epochs: &[u16],
    their_counts: &[u32],
    removed: Removed,
    ids: &[[u8; 32]],
    removed_epochs: &[u16],
    removed_bytes: &[u32],
    strategy: MergingOwnersStrategy,
    epochs: &mut [u16],
    counts: &mut [u32],
) -> Result<Option<Head>, Refusal>
    requires our_counts_value { proper (holding ours our_epochs.now our_counts.now) ≡ true }
    requires their_counts_value { proper (holding theirs their_epochs.now their_counts.now) ≡ true }
    requires removed_bytes_value { proper_in removed (tables ids.now removed_epochs.now removed_bytes.now) ≡ true }
    ensures { let our_flags = flags_were ours our_epochs.now our_counts.now in
        let their_flags = flags_were theirs their_epochs.now their_counts.now in
        let removed_rows = rows_were ids.now removed_epochs.now removed_bytes.now in
        let tables_lent = tables_were epochs.old counts.old in
        shown result (tables_left epochs.new counts.new)
        ≡ placing (removed_above strategy (removal_in removed removed_rows) (flags_of our_flags) (flags_of their_flags) (flags_of our_flags).records)
        tables_lent }
{
    if ours.records == 0 {
        return flags::hand_on(ours, our_epochs, our_counts, epochs, counts);
    }
    let owner = flags::combine_owners(ours, theirs, strategy)?;
    remove_bytes(
        owner,
        ours.base,
        &our_epochs[..ours.records],
        &our_counts[..ours.records],
        &their_epochs[..theirs.records],
        &their_counts[..theirs.records],
        records::id_of(ours),
        removed,
        ids,
        removed_epochs,
        removed_bytes,
        epochs,
        counts,
    )
}

// Merges proper flags: the bases decide first.
fn combine_removed_proper(
    ours: Head,
    our_epochs: &[u16],
    our_counts: &[u32],
    theirs: Head,
    their_epochs: &[u16],
    their_counts: &[u32],
    removed: Removed,
    ids: &[[u8; 32]],
    removed_epochs: &[u16],
    removed_bytes: &[u32],
    strategy: MergingOwnersStrategy,
    epochs: &mut [u16],
    counts: &mut [u32],
) -> Result<Option<Head>, Refusal>
    requires our_counts_value { proper (holding ours our_epochs.now our_counts.now) ≡ true }
    requires their_counts_value { proper (holding theirs their_epochs.now their_counts.now) ≡ true }
    requires removed_bytes_value { proper_in removed (tables ids.now removed_epochs.now removed_bytes.now) ≡ true }
    ensures { let our_flags = flags_were ours our_epochs.now our_counts.now in
        let their_flags = flags_were theirs their_epochs.now their_counts.now in
        let removed_rows = rows_were ids.now removed_epochs.now removed_bytes.now in
        let tables_lent = tables_were epochs.old counts.old in
        shown result (tables_left epochs.new counts.new)
        ≡ placing (merged strategy (removal_in removed removed_rows) (flags_of our_flags) (flags_of their_flags)) tables_lent }
{
    match theirs.base.cmp(&ours.base) {
        Ordering::Less => Err(Refusal::DifferentBaseEpoch),
        Ordering::Equal => combine_same_base_epoch(
            ours,
            our_epochs,
            our_counts,
            theirs,
            their_epochs,
            their_counts,
            strategy,
            epochs,
            counts,
        ),
        Ordering::Greater => combine_with_higher_base_epoch_remove_bytes(
            ours,
            our_epochs,
            our_counts,
            theirs,
            their_epochs,
            their_counts,
            removed,
            ids,
            removed_epochs,
            removed_bytes,
            strategy,
            epochs,
            counts,
        ),
    }
}

// Merges ours with the incoming flags that came with removed bytes.
pub fn combine_removed_bytes(
    ours: Head,
    our_epochs: &[u16],
    our_counts: &[u32],
    theirs: Head,
    their_epochs: &[u16],
    their_counts: &[u32],
    removal: StorageRemovedBytes,
    ids: &[[u8; 32]],
    removed_epochs: &[u16],
    removed_bytes: &[u32],
    strategy: MergingOwnersStrategy,
    epochs: &mut [u16],
    counts: &mut [u32],
) -> Result<Option<Head>, Refusal>
    ensures { let our_flags = flags_were ours our_epochs.now our_counts.now in
        let their_flags = flags_were theirs their_epochs.now their_counts.now in
        let removed_rows = rows_were ids.now removed_epochs.now removed_bytes.now in
        let tables_lent = tables_were epochs.old counts.old in
        let removed_removal = holding_rows removal.removed removed_rows in
        shown result (tables_left epochs.new counts.new) ≡ combined_removed our_flags their_flags removed_removal strategy tables_lent }
{
    if records::is_proper(ours, our_epochs, our_counts)
        && records::is_proper(theirs, their_epochs, their_counts)
        && rows::removal_is_proper(removal.removed, ids, removed_epochs, removed_bytes)
    {
        combine_removed_proper(
            ours,
            our_epochs,
            our_counts,
            theirs,
            their_epochs,
            their_counts,
            removal.removed,
            ids,
            removed_epochs,
            removed_bytes,
            strategy,
            epochs,
            counts,
        )
    } else {
        Err(Refusal::BadTable)
    }
}

// `combine_removed_bytes` where ours may be absent: then ours is not looked at, and the incoming flags are handed on; the removal is tested
// all the same.
pub fn optional_combine_removed_bytes(
    present: bool,
    ours: Head,
    our_epochs: &[u16],
    our_counts: &[u32],
    theirs: Head,
    their_epochs: &[u16],
    their_counts: &[u32],
    removal: StorageRemovedBytes,
    ids: &[[u8; 32]],
    removed_epochs: &[u16],
    removed_bytes: &[u32],
    strategy: MergingOwnersStrategy,
    epochs: &mut [u16],
    counts: &mut [u32],
) -> Result<Option<Head>, Refusal>
    ensures { let our_flags = flags_were ours our_epochs.now our_counts.now in
        let their_flags = flags_were theirs their_epochs.now their_counts.now in
        let removed_rows = rows_were ids.now removed_epochs.now removed_bytes.now in
        let tables_lent = tables_were epochs.old counts.old in
        let removed_removal = holding_rows removal.removed removed_rows in
        shown result (tables_left epochs.new counts.new) ≡ optional_combined_removed present our_flags their_flags removed_removal strategy tables_lent }
{
    if present {
        combine_removed_bytes(
            ours,
            our_epochs,
            our_counts,
            theirs,
            their_epochs,
            their_counts,
            removal,
            ids,
            removed_epochs,
            removed_bytes,
            strategy,
            epochs,
            counts,
        )
    } else if rows::removal_is_proper(removal.removed, ids, removed_epochs, removed_bytes) {
        flags::combine_absent(theirs, their_epochs, their_counts, epochs, counts)
    } else {
        Err(Refusal::BadTable)
    }
}
