// Judging a change before anything is written: whether the totals hold the old counts, whether the new ones fit, and how many rows go
// and are made.
ghost use Rattle.std.specs.Prelude.{◌≡◌, true};
ghost use Rattle.records_spec.specs.Inner.Tables.{Table};
ghost use Rattle.rows_spec.specs.Rows.{row, tables, rows_in, rows_were};
ghost use Rattle.records_spec.specs.Outcomes.{answered};
ghost use Rattle.totals_spec.specs.Table.{total_at};
ghost use Rattle.totals_spec.specs.Replacing.{covered};
ghost use Rattle.totals_spec.specs.Inner.Steps.{under, judged_old, judged_new, Standing};

use records_spec::Refusal;
use totals_rows::look_up_row;

// The largest total.
pub const LARGEST_TOTAL: u64 = u64::MAX;

// Whether the first n rows hold the old counts, and how many of the rows go.
pub fn judge_old(
    owners: &[[u8; 32]],
    epochs: &[u16],
    totals: &[u64],
    n: usize,
    owner: [u8; 32],
    old_epochs: &[u16],
    old_counts: &[u32],
) -> Result<usize, Refusal>
    requires standing { Standing 0 n (tables owners.now epochs.now totals.now) }
    requires table { Table old_epochs.now old_counts.now }
    ensures { answered result ≡ judged_old (under owner old_epochs.now old_counts.now) (rows_in n (rows_were owners.now epochs.now totals.now)) }
{
    let mut gone = 0;
    for (epoch, count) in old_epochs.iter().zip(old_counts) {
        let count = u64::from(*count);
        let total = look_up_row(owners, epochs, totals, 0, n, owner, *epoch).total;
        if total < count {
            return Err(Refusal::IndexMismatch);
        }
        if 0 < count && total == count {
            gone += 1;
        }
    }
    Ok(gone)
}

// The count that an owner's records have at an owner and epoch; 0 where the owners differ.
pub fn count_at(
    records_owner: [u8; 32],
    epochs: &[u16],
    counts: &[u32],
    owner: [u8; 32],
    epoch: u16,
) -> u64
    requires { Table epochs.now counts.now }
    ensures { result ≡ total_at (row owner epoch 0) (under records_owner epochs.now counts.now) }
{
    if records_owner == owner {
        u64::from(records::look_up(epochs, counts, epoch).count)
    } else {
        0
    }
}

// Whether the new counts fit where the old ones are taken first, and how many rows are made.
pub fn judge_new(
    owners: &[[u8; 32]],
    epochs: &[u16],
    totals: &[u64],
    n: usize,
    old_owner: [u8; 32],
    old_epochs: &[u16],
    old_counts: &[u32],
    new_owner: [u8; 32],
    new_epochs: &[u16],
    new_counts: &[u32],
) -> Result<usize, Refusal>
    requires standing { Standing 0 n (tables owners.now epochs.now totals.now) }
    requires table { Table old_epochs.now old_counts.now }
    requires table_2 { Table new_epochs.now new_counts.now }
    requires totals_value { covered (under old_owner old_epochs.now old_counts.now) (rows_in n (tables owners.now epochs.now totals.now))
        ≡ true }
    ensures { let rows_lent = rows_were owners.now epochs.now totals.now in
        let old_rows = under old_owner old_epochs.now old_counts.now in
        let new_rows = under new_owner new_epochs.now new_counts.now in
        answered result ≡ judged_new old_rows new_rows (rows_in n rows_lent) }
{
    let mut made = 0;
    for (epoch, count) in new_epochs.iter().zip(new_counts) {
        let count = u64::from(*count);
        let total = look_up_row(owners, epochs, totals, 0, n, new_owner, *epoch).total;
        let left = total - count_at(old_owner, old_epochs, old_counts, new_owner, *epoch);
        if left.checked_add(count).is_none() {
            return Err(Refusal::Overflow);
        }
        if 0 < count && left == 0 {
            made += 1;
        }
    }
    Ok(made)
}
