// Replacing flags in a table of totals that is a slice of structs, for C.
ghost use Rattle.totals_index_spec.specs.Calls.{beside};
ghost use Rattle.capi_spec.specs.Given.{flags_were_c};
ghost use Rattle.rows_spec.specs.Rows.{rows_were, rows_left};
ghost use Rattle.capi_spec.specs.Calls.{SaysStructsC};

use capi_spec::{CCount, CHead};
use totals_index_spec::Total;

// Replaces one element's old flags by new ones in a table of structs, with three slices as a work area; absent flags are not looked at. It branches
// on the test of the form over slices, so that both are one definition with another call inside.
pub fn petasunok_totals_replace_structs(
    rows: usize,
    table: &mut [Total],
    owners: &mut [[u8; 32]],
    epochs: &mut [u16],
    totals: &mut [u64],
    old_present: u8,
    old_flags: CHead,
    old_epochs: &[u16],
    old_counts: &[u32],
    new_present: u8,
    new_flags: CHead,
    new_epochs: &[u16],
    new_counts: &[u32],
) -> CCount
    ensures { let old_flags = flags_were_c old_flags old_epochs.now old_counts.now in
        let new_flags = flags_were_c new_flags new_epochs.now new_counts.now in
        let rows_lent = rows_were owners.old epochs.old totals.old in
        let lent_left = beside table.new (rows_left owners.new epochs.new totals.new) in
        SaysStructsC rows table.old rows_lent old_present old_flags new_present new_flags result lent_left }
{
    if capi_given::can_replace(old_present, old_flags, new_present, new_flags) {
        capi_told::count_told(totals_index::replace_structs(
            rows,
            table,
            owners,
            epochs,
            totals,
            capi_given::is_true(old_present),
            capi_given::head_given(old_flags),
            old_epochs,
            old_counts,
            capi_given::is_true(new_present),
            capi_given::head_given(new_flags),
            new_epochs,
            new_counts,
        ))
    } else {
        capi_told::bad_table()
    }
}
