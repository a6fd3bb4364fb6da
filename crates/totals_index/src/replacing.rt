// Replacing one element's flags in a table of structs: judged first, then taken apart, changed and put together.
ghost use Rattle.std.specs.Prelude.{◌≡◌, ◌&&◌};
ghost use Rattle.rows_spec.specs.Rows.{rows_were, rows_left};
ghost use Rattle.totals_spec.specs.Calls.{given, proper_given};
ghost use Rattle.totals_spec.specs.Inner.Steps.{counted_rows};
ghost use Rattle.records_spec.specs.Flags.{holding};
ghost use Rattle.records_spec.specs.Answers.{flags_were};
ghost use Rattle.records_spec.specs.Outcomes.{after, answered};
ghost use Rattle.totals_index_spec.specs.Calls.{SaysStructs, verdict, replacing_structs, beside};
ghost use Rattle.totals_index_spec.specs.Inner.Judging.{verdict_of};

use records_spec::{Head, Refusal};
use totals_index_judging::{judge_rows, rows_to_judge, start};
use totals_index_spec::{Judging, Total};
use totals_index_work::{put_together, replace_in, rows_to_put, rows_to_take, take_apart};

// Makes a change that was judged, where it is accepted and has room.
fn replace_judged(
    judged: Judging,
    table: &mut [Total],
    owners: &mut [[u8; 32]],
    epochs: &mut [u16],
    totals: &mut [u64],
    old_present: bool,
    old_flags: Head,
    old_epochs: &[u16],
    old_counts: &[u32],
    new_present: bool,
    new_flags: Head,
    new_epochs: &[u16],
    new_counts: &[u32],
) -> Result<usize, Refusal>
    requires { let old_flags = holding old_flags old_epochs.now old_counts.now in
        let new_flags = holding new_flags new_epochs.now new_counts.now in
        let both_proper = proper_given old_present old_flags && proper_given new_present new_flags in
        let afterwards = verdict judged.rows table.old both_proper (given old_present old_flags) (given new_present new_flags) in
        verdict_of judged ≡ counted_rows afterwards }
    ensures { let old_flags = flags_were old_flags old_epochs.now old_counts.now in
        let new_flags = flags_were new_flags new_epochs.now new_counts.now in
        let rows_lent = rows_were owners.old epochs.old totals.old in
        let both_proper = proper_given old_present old_flags && proper_given new_present new_flags in
        let old_given = given old_present old_flags in
        let new_given = given new_present new_flags in
        after (answered result) (beside table.new (rows_left owners.new epochs.new totals.new))
        ≡ replacing_structs judged.rows table.old rows_lent both_proper old_given new_given }
{
    let size = table.len();
    let taken = rows_to_take(judged, size, owners.len(), epochs.len(), totals.len());
    take_apart(table, taken, owners, epochs, totals);
    let answer = replace_in(
        size,
        judged,
        owners,
        epochs,
        totals,
        old_present,
        old_flags,
        old_epochs,
        old_counts,
        new_present,
        new_flags,
        new_epochs,
        new_counts,
    );
    put_together(table, rows_to_put(answer), owners, epochs, totals);
    answer
}

// Replaces one element's old flags by new ones in a table of totals, either of which may be absent; answers the new number of rows. The
// work area has room for the rows before and after; a refusal changes neither the table nor the work area.
pub fn replace_structs(
    rows: usize,
    table: &mut [Total],
    owners: &mut [[u8; 32]],
    epochs: &mut [u16],
    totals: &mut [u64],
    old_present: bool,
    old_flags: Head,
    old_epochs: &[u16],
    old_counts: &[u32],
    new_present: bool,
    new_flags: Head,
    new_epochs: &[u16],
    new_counts: &[u32],
) -> Result<usize, Refusal>
    ensures { let old_flags = flags_were old_flags old_epochs.now old_counts.now in
        let new_flags = flags_were new_flags new_epochs.now new_counts.now in
        let rows_lent = rows_were owners.old epochs.old totals.old in
        let both_proper = proper_given old_present old_flags && proper_given new_present new_flags in
        let old_given = given old_present old_flags in
        let new_given = given new_present new_flags in
        let lent_left = beside table.new (rows_left owners.new epochs.new totals.new) in
        SaysStructs rows table.old rows_lent both_proper old_given new_given result lent_left }
{
    let first = start(
        rows,
        table.len(),
        old_present,
        old_flags,
        old_epochs,
        old_counts,
        new_present,
        new_flags,
        new_epochs,
        new_counts,
    );
    let judged = judge_rows(
        table,
        rows_to_judge(first),
        first,
        old_epochs,
        old_counts,
        new_epochs,
        new_counts,
    );
    replace_judged(
        judged,
        table,
        owners,
        epochs,
        totals,
        old_present,
        old_flags,
        old_epochs,
        old_counts,
        new_present,
        new_flags,
        new_epochs,
        new_counts,
    )
}
