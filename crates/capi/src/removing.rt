// The removing merge, for C.
ghost use Rattle.std.specs.Prelude.{◌≡◌};
ghost use Rattle.records_spec.specs.Outcomes.{after};
ghost use Rattle.capi_spec.specs.Given.{flags_were_c, holding_rows_c};
ghost use Rattle.records_spec.specs.Answers.{tables_were, tables_left};
ghost use Rattle.rows_spec.specs.Rows.{rows_were};
ghost use Rattle.capi_spec.specs.Told.{flags_told};
ghost use Rattle.capi_spec.specs.Calls.{combined_removed_c, optional_combined_removed_c};

use capi_spec::{CFlags, CHead, CRemoval};

// Merges ours with the incoming flags that came with removed bytes.
pub fn petasunok_combine_removed_bytes(
    ours: CHead,
    our_epochs: &[u16],
    our_counts: &[u32],
    theirs: CHead,
    their_epochs: &[u16],
    their_counts: &[u32],
    removal: CRemoval,
    ids: &[[u8; 32]],
    removed_epochs: &[u16],
    removed_bytes: &[u32],
    strategy: u8,
    epochs: &mut [u16],
    counts: &mut [u32],
) -> CFlags
    ensures { let our_flags = flags_were_c ours our_epochs.now our_counts.now in
        let their_flags = flags_were_c theirs their_epochs.now their_counts.now in
        let removal_rows = rows_were ids.now removed_epochs.now removed_bytes.now in
        let tables_lent = tables_were epochs.old counts.old in
        let removal_given = holding_rows_c removal removal_rows in
        after result (tables_left epochs.new counts.new) ≡ flags_told (combined_removed_c our_flags their_flags removal_given strategy tables_lent) }
{
    capi_merges::combine_removed_bytes(
        ours,
        our_epochs,
        our_counts,
        theirs,
        their_epochs,
        their_counts,
        removal,
        ids,
        removed_epochs,
        removed_bytes,
        strategy,
        epochs,
        counts,
    )
}

// The same where ours may be absent; then ours is not looked at.
pub fn petasunok_optional_combine_removed_bytes(
    present: u8,
    ours: CHead,
    our_epochs: &[u16],
    our_counts: &[u32],
    theirs: CHead,
    their_epochs: &[u16],
    their_counts: &[u32],
    removal: CRemoval,
    ids: &[[u8; 32]],
    removed_epochs: &[u16],
    removed_bytes: &[u32],
    strategy: u8,
    epochs: &mut [u16],
    counts: &mut [u32],
) -> CFlags
    ensures { let our_flags = flags_were_c ours our_epochs.now our_counts.now in
        let their_flags = flags_were_c theirs their_epochs.now their_counts.now in
        let removal_rows = rows_were ids.now removed_epochs.now removed_bytes.now in
        let tables_lent = tables_were epochs.old counts.old in
        let removal_given = holding_rows_c removal removal_rows in
        after result (tables_left epochs.new counts.new)
        ≡ flags_told (optional_combined_removed_c present our_flags their_flags removal_given strategy tables_lent) }
{
    capi_merges::optional_combine_removed_bytes(
        present,
        ours,
        our_epochs,
        our_counts,
        theirs,
        their_epochs,
        their_counts,
        removal,
        ids,
        removed_epochs,
        removed_bytes,
        strategy,
        epochs,
        counts,
    )
}
