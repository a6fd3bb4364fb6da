// Writing a change that was judged: the old counts are taken from the front, then the new ones added from the back, so that no row is
// moved twice by either.
ghost use Rattle.std.specs.Prelude.{◌≡◌, true, cond, ◌+◌, ◌<◌, ltb, [], length};
ghost use Rattle.records_spec.specs.Inner.Tables.{Table};
ghost use Rattle.rows_spec.specs.Rows.{tables, rows_in, over_rows, Room, rows_were, rows_left};
ghost use Rattle.totals_spec.specs.Table.{add_counts, take_counts};
ghost use Rattle.totals_spec.specs.Replacing.{covered, all_fit};
ghost use Rattle.totals_spec.specs.Inner.Steps.{under, Standing};

use crate::finding::look_up_row;
use crate::moving::move_rows;
use crate::table::put_total;

// Takes the old counts from the first n rows; answers how many rows are left. The rows before the place `to` are as they end, those from
// `at` on as they began.
pub fn take_old_counts(
    owners: &mut [[u8; 32]],
    epochs: &mut [u16],
    totals: &mut [u64],
    n: usize,
    owner: [u8; 32],
    old_epochs: &[u16],
    old_counts: &[u32],
) -> usize
    requires standing { Standing 0 n (tables owners.old epochs.old totals.old) }
    requires table { Table old_epochs.now old_counts.now }
    requires totals_value { covered (under owner old_epochs.now old_counts.now) (rows_in n (tables owners.old epochs.old totals.old)) ≡ true }
    ensures totals_value_2 { let rows_lent = rows_were owners.old epochs.old totals.old in
        let named_rows = under owner old_epochs.now old_counts.now in
        rows_left owners.new epochs.new totals.new ≡ over_rows (take_counts named_rows (rows_in n rows_lent)) rows_lent }
    ensures value { result ≡ length (take_counts (under owner old_epochs.now old_counts.now) (rows_in n (rows_were owners.old epochs.old totals.old))) }
{
    let mut at: usize = 0;
    let mut to: usize = 0;
    for (epoch, count) in old_epochs.iter().zip(old_counts) {
        let count = u64::from(*count);
        if 0 < count {
            let spot = look_up_row(owners, epochs, totals, at, n, owner, *epoch);
            move_rows(owners, epochs, totals, at, spot.place, to);
            to += spot.place - at;
            at = spot.place + 1;
            if count < spot.total {
                let left = spot.total - count;
                put_total(owners, epochs, totals, to, owner, *epoch, left);
                to += 1;
            }
        }
    }
    move_rows(owners, epochs, totals, at, n, to);
    to + (n - at)
}

// The place behind a row that stands at a place; the place itself where none stands there.
fn behind_row(place: usize, total: u64) -> usize
    requires { place < 18446744073709551615 }
    ensures { result ≡ place + cond (ltb 0 total) 1 0 }
{
    if 0 < total { place + 1 } else { place }
}

// Adds the new counts to the first n rows. There are `count` rows afterwards, for which there is room. The rows from the place `end` on
// are as they end, those before `upto` as they began.
pub fn add_new_counts(
    owners: &mut [[u8; 32]],
    epochs: &mut [u16],
    totals: &mut [u64],
    n: usize,
    owner: [u8; 32],
    new_epochs: &[u16],
    new_counts: &[u32],
    count: usize,
)
    requires standing { Standing 0 n (tables owners.old epochs.old totals.old) }
    requires table { Table new_epochs.now new_counts.now }
    requires totals_value { all_fit [] (under owner new_epochs.now new_counts.now) (rows_in n (tables owners.old epochs.old totals.old)) ≡ true }
    requires count_value { count
        ≡ length (add_counts (under owner new_epochs.now new_counts.now) (rows_in n (tables owners.old epochs.old totals.old))) }
    requires room { Room count (tables owners.old epochs.old totals.old) }
    ensures { let rows_lent = rows_were owners.old epochs.old totals.old in
        let named_rows = under owner new_epochs.now new_counts.now in
        rows_left owners.new epochs.new totals.new ≡ over_rows (add_counts named_rows (rows_in n rows_lent)) rows_lent }
{
    let mut upto = n;
    let mut end = count;
    for (epoch, count) in new_epochs.iter().zip(new_counts).rev() {
        if 0 < *count {
            let spot = look_up_row(owners, epochs, totals, 0, upto, owner, *epoch);
            let behind = behind_row(spot.place, spot.total);
            let to = end - (upto - behind);
            move_rows(owners, epochs, totals, behind, upto, to);
            end = to - 1;
            let total = spot.total + u64::from(*count);
            put_total(owners, epochs, totals, end, owner, *epoch, total);
            upto = spot.place;
        }
    }
}
