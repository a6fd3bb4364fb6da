// Splitting and adding up removals, for C.
ghost use Rattle.std.specs.Prelude.{◌≡◌};
ghost use Rattle.records_spec.specs.Outcomes.{after};
ghost use Rattle.capi_spec.specs.Given.{flags_were_c, holding_rows_c};
ghost use Rattle.rows_spec.specs.Rows.{rows_were, rows_left};
ghost use Rattle.capi_spec.specs.Told.{count_told, truth_told, told_as, sum_answer, split_answer};
ghost use Rattle.capi_spec.specs.Calls.{split_key_c, split_value_c, summed_c, has_removal_c, total_removed_c};

use capi_spec::{CCount, CHead, CRemoval, CSum, CValueSplit};

// Splits a removal of key bytes.
#[unsafe(no_mangle)]
pub extern "C" fn petasunok_split_key_removed_bytes(
    flags: CHead,
    epochs: &[u16],
    counts: &[u32],
    removed_key_bytes: u32,
    ids: &mut [[u8; 32]],
    row_epochs: &mut [u16],
    row_bytes: &mut [u32],
) -> CSum
    ensures { let flags_given = flags_were_c flags epochs.now counts.now in
        let rows_lent = rows_were ids.old row_epochs.old row_bytes.old in
        after result (rows_left ids.new row_epochs.new row_bytes.new) ≡ told_as sum_answer (split_key_c flags_given removed_key_bytes rows_lent) }
{
    capi::petasunok_split_key_removed_bytes(
        flags,
        epochs,
        counts,
        removed_key_bytes,
        ids,
        row_epochs,
        row_bytes,
    )
}

// Splits a removal of value bytes.
#[unsafe(no_mangle)]
pub extern "C" fn petasunok_split_value_removed_bytes(
    flags: CHead,
    epochs: &[u16],
    counts: &[u32],
    removed_value_bytes: u32,
    ids: &mut [[u8; 32]],
    row_epochs: &mut [u16],
    row_bytes: &mut [u32],
) -> CValueSplit
    ensures { let flags_given = flags_were_c flags epochs.now counts.now in
        let rows_lent = rows_were ids.old row_epochs.old row_bytes.old in
        after result (rows_left ids.new row_epochs.new row_bytes.new) ≡ told_as split_answer (split_value_c flags_given removed_value_bytes rows_lent) }
{
    capi::petasunok_split_value_removed_bytes(
        flags,
        epochs,
        counts,
        removed_value_bytes,
        ids,
        row_epochs,
        row_bytes,
    )
}

// Adds the right removal to the left one, in the left one's tables.
#[unsafe(no_mangle)]
pub extern "C" fn petasunok_add_assign(
    lhs: CRemoval,
    ids: &mut [[u8; 32]],
    epochs: &mut [u16],
    bytes: &mut [u32],
    rhs: CRemoval,
    rhs_ids: &[[u8; 32]],
    rhs_epochs: &[u16],
    rhs_bytes: &[u32],
    version: u16,
) -> CSum
    ensures { let lhs_rows = rows_were ids.old epochs.old bytes.old in
        let rhs_rows = rows_were rhs_ids.now rhs_epochs.now rhs_bytes.now in
        let lhs_given = holding_rows_c lhs lhs_rows in
        let rhs_given = holding_rows_c rhs rhs_rows in
        after result (rows_left ids.new epochs.new bytes.new) ≡ told_as sum_answer (summed_c version lhs_given rhs_given) }
{
    capi::petasunok_add_assign(
        lhs, ids, epochs, bytes, rhs, rhs_ids, rhs_epochs, rhs_bytes, version,
    )
}

// Whether anything was removed: 1 or 0.
#[unsafe(no_mangle)]
pub extern "C" fn petasunok_has_removal(
    removal: CRemoval,
    ids: &[[u8; 32]],
    epochs: &[u16],
    bytes: &[u32],
) -> CCount
    ensures { result ≡ truth_told (has_removal_c (holding_rows_c removal (rows_were ids.now epochs.now bytes.now))) }
{
    capi::petasunok_has_removal(removal, ids, epochs, bytes)
}

// All bytes of a removal.
#[unsafe(no_mangle)]
pub extern "C" fn petasunok_total_removed_bytes(
    removal: CRemoval,
    ids: &[[u8; 32]],
    epochs: &[u16],
    bytes: &[u32],
) -> CCount
    ensures { result ≡ count_told (total_removed_c (holding_rows_c removal (rows_were ids.now epochs.now bytes.now))) }
{
    capi::petasunok_total_removed_bytes(removal, ids, epochs, bytes)
}
