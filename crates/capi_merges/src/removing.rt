// The removing merge, for C.
ghost use Rattle.std.specs.Prelude.{◌≡◌};
ghost use Rattle.capi_spec.specs.Given.{flags_were_c, holding_rows_c};
ghost use Rattle.records_spec.specs.Answers.{tables_were, tables_left};
ghost use Rattle.rows_spec.specs.Rows.{rows_were};
ghost use Rattle.capi_spec.specs.Told.{flags_told};
ghost use Rattle.capi_spec.specs.Calls.{combined_removed_c, optional_combined_removed_c};
ghost use Rattle.records_spec.specs.Outcomes.{after};

use capi_spec::{CFlags, CHead, CRemoval};

// Merges ours with the incoming flags that came with removed bytes.
pub fn combine_removed_bytes(
    ours: CHead,
    our_epochs: &[u16],
    our_counts: &[u32],
    theirs: CHead,
    their_epochs: &[u16],
    their_counts: &[u32],
    removal: CRemoval,
    ids: &[[u8; 32]],
    removed_epochs: &[u16],
    removed_bytes: &[u32],
    strategy: u8,
    epochs: &mut [u16],
    counts: &mut [u32],
) -> CFlags
    ensures { let our_flags = flags_were_c ours our_epochs.now our_counts.now in
        let their_flags = flags_were_c theirs their_epochs.now their_counts.now in
        let removal_rows = rows_were ids.now removed_epochs.now removed_bytes.now in
        let tables_lent = tables_were epochs.old counts.old in
        let removal_given = holding_rows_c removal removal_rows in
        after result (tables_left epochs.new counts.new) ≡ flags_told (combined_removed_c our_flags their_flags removal_given strategy tables_lent) }
{
    if capi_given::can_remove(true, ours, theirs, strategy, removal) {
        capi_told::flags_told(removal::combine_removed_bytes(
            capi_given::head_given(ours),
            our_epochs,
            our_counts,
            capi_given::head_given(theirs),
            their_epochs,
            their_counts,
            capi_given::removal_given(removal),
            ids,
            removed_epochs,
            removed_bytes,
            capi_given::strategy_given(strategy),
            epochs,
            counts,
        ))
    } else {
        capi_told::bad_flags()
    }
}

// The same where ours may be absent; then ours is not looked at.
pub fn optional_combine_removed_bytes(
    present: u8,
    ours: CHead,
    our_epochs: &[u16],
    our_counts: &[u32],
    theirs: CHead,
    their_epochs: &[u16],
    their_counts: &[u32],
    removal: CRemoval,
    ids: &[[u8; 32]],
    removed_epochs: &[u16],
    removed_bytes: &[u32],
    strategy: u8,
    epochs: &mut [u16],
    counts: &mut [u32],
) -> CFlags
    ensures { let our_flags = flags_were_c ours our_epochs.now our_counts.now in
        let their_flags = flags_were_c theirs their_epochs.now their_counts.now in
        let removal_rows = rows_were ids.now removed_epochs.now removed_bytes.now in
        let tables_lent = tables_were epochs.old counts.old in
        let removal_given = holding_rows_c removal removal_rows in
        after result (tables_left epochs.new counts.new)
        ≡ flags_told (optional_combined_removed_c present our_flags their_flags removal_given strategy tables_lent) }
{
    let is_present = capi_given::is_true(present);
    if capi_given::can_remove(is_present, ours, theirs, strategy, removal) {
        capi_told::flags_told(removal::optional_combine_removed_bytes(
            is_present,
            capi_given::head_given(ours),
            our_epochs,
            our_counts,
            capi_given::head_given(theirs),
            their_epochs,
            their_counts,
            capi_given::removal_given(removal),
            ids,
            removed_epochs,
            removed_bytes,
            capi_given::strategy_given(strategy),
            epochs,
            counts,
        ))
    } else {
        capi_told::bad_flags()
    }
}
