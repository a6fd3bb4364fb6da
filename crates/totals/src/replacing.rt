// Replacing one element's flags: the table is judged and counted first, then written.
ghost use Rattle.std.specs.Prelude.{◌≡◌, ◌&&◌};
ghost use Rattle.records_spec.specs.Inner.Tables.{Table};
ghost use Rattle.rows_spec.specs.Rows.{tables, rows_in, rows_were, rows_left};
ghost use Rattle.records_spec.specs.Outcomes.{ok, after, answered};
ghost use Rattle.records_spec.specs.Answers.{flags_were};
ghost use Rattle.totals_spec.specs.Replacing.{changed};
ghost use Rattle.totals_spec.specs.Inner.Steps.{under, counted_rows, named_by, Standing, placing_rows};
ghost use Rattle.totals_spec.specs.Calls.{given, proper_given, replacing};

use crate::judging::{judge_new, judge_old};
use records_spec::{Head, OWNER_LENGTH, Refusal};
use totals_rows::{add_new_counts, take_old_counts};
use totals_spec::Named;

// Judges a change of the first n rows: how many rows there are afterwards, or why it is refused.
fn judge_change(
    owners: &[[u8; 32]],
    epochs: &[u16],
    totals: &[u64],
    n: usize,
    old_owner: [u8; 32],
    old_epochs: &[u16],
    old_counts: &[u32],
    new_owner: [u8; 32],
    new_epochs: &[u16],
    new_counts: &[u32],
) -> Result<usize, Refusal>
    requires standing { Standing 0 n (tables owners.now epochs.now totals.now) }
    requires table { Table old_epochs.now old_counts.now }
    requires table_2 { Table new_epochs.now new_counts.now }
    ensures { let rows_lent = rows_were owners.now epochs.now totals.now in
        let old_rows = under old_owner old_epochs.now old_counts.now in
        let new_rows = under new_owner new_epochs.now new_counts.now in
        answered result ≡ counted_rows (changed old_rows new_rows (rows_in n rows_lent)) }
{
    let gone = judge_old(owners, epochs, totals, n, old_owner, old_epochs, old_counts)?;
    let made = judge_new(
        owners, epochs, totals, n, old_owner, old_epochs, old_counts, new_owner, new_epochs,
        new_counts,
    )?;
    Ok(n - gone + made)
}

// Writes a change that was judged, where its `count` rows have room.
fn write(
    owners: &mut [[u8; 32]],
    epochs: &mut [u16],
    totals: &mut [u64],
    n: usize,
    old_owner: [u8; 32],
    old_epochs: &[u16],
    old_counts: &[u32],
    new_owner: [u8; 32],
    new_epochs: &[u16],
    new_counts: &[u32],
    count: usize,
) -> Result<usize, Refusal>
    requires standing { Standing 0 n (tables owners.old epochs.old totals.old) }
    requires table { Table old_epochs.now old_counts.now }
    requires table_2 { Table new_epochs.now new_counts.now }
    requires count_value { let old_rows = under old_owner old_epochs.now old_counts.now in
        let new_rows = under new_owner new_epochs.now new_counts.now in
        ok count ≡ counted_rows (changed old_rows new_rows (rows_in n (tables owners.old epochs.old totals.old))) }
    ensures { let rows_lent = rows_were owners.old epochs.old totals.old in
        let old_rows = under old_owner old_epochs.now old_counts.now in
        let new_rows = under new_owner new_epochs.now new_counts.now in
        after (answered result) (rows_left owners.new epochs.new totals.new) ≡ placing_rows (changed old_rows new_rows (rows_in n rows_lent)) rows_lent }
{
    if !totals_rows::totals_fit(count, owners, epochs, totals) {
        return Err(Refusal::NoRoom);
    }
    let left = take_old_counts(owners, epochs, totals, n, old_owner, old_epochs, old_counts);
    add_new_counts(
        owners, epochs, totals, left, new_owner, new_epochs, new_counts, count,
    );
    Ok(count)
}

// Changes the first n rows: judged and counted first, then refused or written.
fn change(
    owners: &mut [[u8; 32]],
    epochs: &mut [u16],
    totals: &mut [u64],
    n: usize,
    old_owner: [u8; 32],
    old_epochs: &[u16],
    old_counts: &[u32],
    new_owner: [u8; 32],
    new_epochs: &[u16],
    new_counts: &[u32],
) -> Result<usize, Refusal>
    requires standing { Standing 0 n (tables owners.old epochs.old totals.old) }
    requires table { Table old_epochs.now old_counts.now }
    requires table_2 { Table new_epochs.now new_counts.now }
    ensures { let rows_lent = rows_were owners.old epochs.old totals.old in
        let old_rows = under old_owner old_epochs.now old_counts.now in
        let new_rows = under new_owner new_epochs.now new_counts.now in
        after (answered result) (rows_left owners.new epochs.new totals.new) ≡ placing_rows (changed old_rows new_rows (rows_in n rows_lent)) rows_lent }
{
    let count = judge_change(
        owners, epochs, totals, n, old_owner, old_epochs, old_counts, new_owner, new_epochs,
        new_counts,
    )?;
    write(
        owners, epochs, totals, n, old_owner, old_epochs, old_counts, new_owner, new_epochs,
        new_counts, count,
    )
}

// Whether flags are absent or proper.
pub fn is_good(present: bool, head: Head, epochs: &[u16], counts: &[u32]) -> bool
    ensures { result ≡ proper_given present (flags_were head epochs.now counts.now) }
{
    !present || records::is_proper(head, epochs, counts)
}

// What flags name: nothing where they are absent; 32 zero bytes stand for no owner.
pub fn names_of(present: bool, head: Head) -> Named
    ensures { result ≡ named_by present head }
{
    if present {
        let owner = records::id_of(head);
        Named {
            owner,
            records: head.records,
        }
    } else {
        Named {
            owner: [0u8; OWNER_LENGTH],
            records: 0,
        }
    }
}

// Replaces one element's old flags by new ones in a table of totals, either of which may be absent; answers the new number of rows.
pub fn replace(
    rows: usize,
    owners: &mut [[u8; 32]],
    epochs: &mut [u16],
    totals: &mut [u64],
    old_present: bool,
    old_flags: Head,
    old_epochs: &[u16],
    old_counts: &[u32],
    new_present: bool,
    new_flags: Head,
    new_epochs: &[u16],
    new_counts: &[u32],
) -> Result<usize, Refusal>
    ensures { let old_flags = flags_were old_flags old_epochs.now old_counts.now in
        let new_flags = flags_were new_flags new_epochs.now new_counts.now in
        let rows_lent = rows_were owners.old epochs.old totals.old in
        let both_proper = proper_given old_present old_flags && proper_given new_present new_flags in
        let old_given = given old_present old_flags in
        let new_given = given new_present new_flags in
        after (answered result) (rows_left owners.new epochs.new totals.new) ≡ replacing rows rows_lent both_proper old_given new_given }
{
    if totals_rows::table_is_proper(rows, owners, epochs, totals)
        && is_good(old_present, old_flags, old_epochs, old_counts)
        && is_good(new_present, new_flags, new_epochs, new_counts)
    {
        let taken = names_of(old_present, old_flags);
        let added = names_of(new_present, new_flags);
        change(
            owners,
            epochs,
            totals,
            rows,
            taken.owner,
            &old_epochs[..taken.records],
            &old_counts[..taken.records],
            added.owner,
            &new_epochs[..added.records],
            &new_counts[..added.records],
        )
    } else {
        Err(Refusal::BadTable)
    }
}
