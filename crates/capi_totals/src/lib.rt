// The change of totals in three slices on what C gives, told as C gets it.
#![tactic(auto)]

ghost use Rattle.std.specs.Prelude.{◌≡◌};
ghost use Rattle.capi_spec.specs.Given.{flags_were_c};
ghost use Rattle.rows_spec.specs.Rows.{rows_were, rows_left};
ghost use Rattle.capi_spec.specs.Calls.{totals_replaced_c};
ghost use Rattle.capi_spec.specs.Told.{count_told, told_as};
ghost use Rattle.records_spec.specs.Outcomes.{after};

use capi_spec::{CCount, CHead};

// Replaces one element's old flags by new ones in a table of totals; absent flags are not looked at.
pub fn totals_replace(
    rows: usize,
    owners: &mut [[u8; 32]],
    epochs: &mut [u16],
    totals: &mut [u64],
    old_present: u8,
    old_flags: CHead,
    old_epochs: &[u16],
    old_counts: &[u32],
    new_present: u8,
    new_flags: CHead,
    new_epochs: &[u16],
    new_counts: &[u32],
) -> CCount
    ensures { let old_flags = flags_were_c old_flags old_epochs.now old_counts.now in
        let new_flags = flags_were_c new_flags new_epochs.now new_counts.now in
        let rows_lent = rows_were owners.old epochs.old totals.old in
        after result (rows_left owners.new epochs.new totals.new)
        ≡ told_as count_told (totals_replaced_c rows rows_lent old_present old_flags new_present new_flags) }
{
    if capi_given::can_replace(old_present, old_flags, new_present, new_flags) {
        capi_told::count_told(totals::replace(
            rows,
            owners,
            epochs,
            totals,
            capi_given::is_true(old_present),
            capi_given::head_given(old_flags),
            old_epochs,
            old_counts,
            capi_given::is_true(new_present),
            capi_given::head_given(new_flags),
            new_epochs,
            new_counts,
        ))
    } else {
        capi_told::bad_table()
    }
}
