// What is done in the work area, once the table was judged.
ghost use Rattle.std.specs.Prelude.{◌≡◌, cond, ◌&&◌};
ghost use Rattle.rows_spec.specs.Rows.{rows_were, rows_left};
ghost use Rattle.totals_spec.specs.Calls.{given, proper_given};
ghost use Rattle.totals_index_spec.specs.Inner.Judging.{room_of, fitted, refusal_for};
ghost use Rattle.totals_index_spec.specs.Inner.Steps.{rows_told, replacing_in};
ghost use Rattle.records_spec.specs.Refusals.{number};
ghost use Rattle.records_spec.specs.Outcomes.{refused, after, answered};
ghost use Rattle.records_spec.specs.Answers.{flags_were};

use records_spec::{Head, Refusal};
use totals_index_spec::Judging;

// Whether three columns of these lengths have n places.
fn has_room(n: usize, owners: usize, epochs: usize, totals: usize) -> bool
    ensures { result ≡ room_of n owners epochs totals }
{
    n <= owners && n <= epochs && n <= totals
}

// Whether a change is accepted, and has room in a table of a size and in columns of these lengths.
fn fits(judged: Judging, size: usize, owners: usize, epochs: usize, totals: usize) -> bool
    ensures { result ≡ fitted judged size owners epochs totals }
{
    judged.good
        && judged.owed == 0
        && judged.fits
        && judged.left <= size
        && judged.made <= size - judged.left
        && has_room(judged.rows, owners, epochs, totals)
        && has_room(judged.left + judged.made, owners, epochs, totals)
}

// The refusal where a change is not made.
fn refusal_for(judged: Judging) -> Result<usize, Refusal>
    ensures { answered result ≡ refused (number (refusal_for judged)) }
{
    Err(if !judged.good {
        Refusal::BadTable
    } else if judged.owed != 0 {
        Refusal::IndexMismatch
    } else if !judged.fits {
        Refusal::Overflow
    } else {
        Refusal::NoRoom
    })
}

// Replaces flags in the work area where the change is accepted and has room.
pub fn replace_in(
    size: usize,
    judged: Judging,
    owners: &mut [[u8; 32]],
    epochs: &mut [u16],
    totals: &mut [u64],
    old_present: bool,
    old_flags: Head,
    old_epochs: &[u16],
    old_counts: &[u32],
    new_present: bool,
    new_flags: Head,
    new_epochs: &[u16],
    new_counts: &[u32],
) -> Result<usize, Refusal>
    ensures { let old_flags = flags_were old_flags old_epochs.now old_counts.now in
        let new_flags = flags_were new_flags new_epochs.now new_counts.now in
        let rows_lent = rows_were owners.old epochs.old totals.old in
        let both_proper = proper_given old_present old_flags && proper_given new_present new_flags in
        let old_given = given old_present old_flags in
        let new_given = given new_present new_flags in
        after (answered result) (rows_left owners.new epochs.new totals.new) ≡ replacing_in size judged rows_lent both_proper old_given new_given }
{
    if fits(judged, size, owners.len(), epochs.len(), totals.len()) {
        totals::replace(
            judged.rows,
            owners,
            epochs,
            totals,
            old_present,
            old_flags,
            old_epochs,
            old_counts,
            new_present,
            new_flags,
            new_epochs,
            new_counts,
        )
    } else {
        refusal_for(judged)
    }
}

// How many rows are taken apart: all, where the change is accepted and has room.
pub fn rows_to_take(
    judged: Judging,
    size: usize,
    owners: usize,
    epochs: usize,
    totals: usize,
) -> usize
    ensures { result ≡ cond (fitted judged size owners epochs totals) judged.rows 0 }
{
    if fits(judged, size, owners, epochs, totals) {
        judged.rows
    } else {
        0
    }
}

// How many rows are put together: those of an answer.
pub fn rows_to_put(answer: Result<usize, Refusal>) -> usize
    ensures { result ≡ rows_told (answered answer) }
{
    answer.unwrap_or(0)
}
