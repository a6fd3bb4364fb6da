// The split, the sum and the calls on a removal on what C gives, told as C gets it.
#![tactic(auto)]

ghost use Rattle.std.specs.Prelude.{◌≡◌};
ghost use Rattle.capi_spec.specs.Given.{flags_were_c, holding_rows_c};
ghost use Rattle.rows_spec.specs.Rows.{rows_were, rows_left};
ghost use Rattle.capi_spec.specs.Told.{count_told, truth_told, told_as, sum_answer, split_answer};
ghost use Rattle.capi_spec.specs.Calls.{split_key_c, split_value_c, summed_c, has_removal_c, total_removed_c};
ghost use Rattle.records_spec.specs.Outcomes.{after};

use capi_spec::{CCount, CHead, CRemoval, CSum, CValueSplit};
use records_spec::Refusal;

// Splits a removal of key bytes.
pub fn split_key_removed_bytes(
    flags: CHead,
    epochs: &[u16],
    counts: &[u32],
    removed_key_bytes: u32,
    ids: &mut [[u8; 32]],
    row_epochs: &mut [u16],
    row_bytes: &mut [u32],
) -> CSum
    ensures { let flags_given = flags_were_c flags epochs.now counts.now in
        let rows_lent = rows_were ids.old row_epochs.old row_bytes.old in
        after result (rows_left ids.new row_epochs.new row_bytes.new) ≡ told_as sum_answer (split_key_c flags_given removed_key_bytes rows_lent) }
{
    if capi_given::is_kind(flags.kind) {
        capi_told::sum_told(splitting::split_key_removed_bytes(
            capi_given::head_given(flags),
            epochs,
            counts,
            removed_key_bytes,
            ids,
            row_epochs,
            row_bytes,
        ))
    } else {
        capi_told::sum_told(Err(Refusal::BadTable))
    }
}

// Splits a removal of value bytes.
pub fn split_value_removed_bytes(
    flags: CHead,
    epochs: &[u16],
    counts: &[u32],
    removed_value_bytes: u32,
    ids: &mut [[u8; 32]],
    row_epochs: &mut [u16],
    row_bytes: &mut [u32],
) -> CValueSplit
    ensures { let flags_given = flags_were_c flags epochs.now counts.now in
        let rows_lent = rows_were ids.old row_epochs.old row_bytes.old in
        after result (rows_left ids.new row_epochs.new row_bytes.new) ≡ told_as split_answer (split_value_c flags_given removed_value_bytes rows_lent) }
{
    if capi_given::is_kind(flags.kind) {
        capi_told::split_told(splitting::split_value_removed_bytes(
            capi_given::head_given(flags),
            epochs,
            counts,
            removed_value_bytes,
            ids,
            row_epochs,
            row_bytes,
        ))
    } else {
        capi_told::split_told(Err(Refusal::BadTable))
    }
}

// Adds the right removal to the left one, in the left one's tables.
pub fn add_assign(
    lhs: CRemoval,
    ids: &mut [[u8; 32]],
    epochs: &mut [u16],
    bytes: &mut [u32],
    rhs: CRemoval,
    rhs_ids: &[[u8; 32]],
    rhs_epochs: &[u16],
    rhs_bytes: &[u32],
    version: u16,
) -> CSum
    ensures { let lhs_rows = rows_were ids.old epochs.old bytes.old in
        let rhs_rows = rows_were rhs_ids.now rhs_epochs.now rhs_bytes.now in
        let lhs_given = holding_rows_c lhs lhs_rows in
        let rhs_given = holding_rows_c rhs rhs_rows in
        after result (rows_left ids.new epochs.new bytes.new) ≡ told_as sum_answer (summed_c version lhs_given rhs_given) }
{
    if capi_given::can_sum(lhs, rhs) {
        capi_told::sum_told(sums::add_assign(
            capi_given::removal_given(lhs),
            ids,
            epochs,
            bytes,
            capi_given::removal_given(rhs),
            rhs_ids,
            rhs_epochs,
            rhs_bytes,
            version,
        ))
    } else {
        capi_told::sum_told(Err(Refusal::BadTable))
    }
}

// Whether anything was removed: 1 or 0.
pub fn has_removal(removal: CRemoval, ids: &[[u8; 32]], epochs: &[u16], bytes: &[u32]) -> CCount
    ensures { result ≡ truth_told (has_removal_c (holding_rows_c removal (rows_were ids.now epochs.now bytes.now))) }
{
    if capi_given::is_removal(removal.kind) {
        capi_told::has_told(rows::has_removal(
            capi_given::removal_given(removal),
            ids,
            epochs,
            bytes,
        ))
    } else {
        capi_told::has_told(Err(Refusal::BadTable))
    }
}

// All bytes of a removal.
pub fn total_removed_bytes(
    removal: CRemoval,
    ids: &[[u8; 32]],
    epochs: &[u16],
    bytes: &[u32],
) -> CCount
    ensures { result ≡ count_told (total_removed_c (holding_rows_c removal (rows_were ids.now epochs.now bytes.now))) }
{
    if capi_given::is_removal(removal.kind) {
        capi_told::total_told(rows::total_removed_bytes(
            capi_given::removal_given(removal),
            ids,
            epochs,
            bytes,
        ))
    } else {
        capi_told::total_told(Err(Refusal::BadTable))
    }
}
