// The table in three slices: place i of them holds an owner, an epoch and a total.
ghost use Rattle.std.specs.Prelude.{◌≡◌, ◌+◌};
ghost use Rattle.rows_spec.specs.Rows.{row, ascends, tables, rows_in, room_in, set_row, Room, rows_were, rows_left};
ghost use Rattle.totals_spec.specs.Table.{all_positive};
ghost use Rattle.totals_spec.specs.Calls.{proper_table};

use crate::words::is_less;

// Whether n rows have room in all three slices.
pub fn totals_fit(n: usize, owners: &[[u8; 32]], epochs: &[u16], totals: &[u64]) -> bool
    ensures { result ≡ room_in n (rows_were owners.now epochs.now totals.now) }
{
    n <= owners.len() && n <= epochs.len() && n <= totals.len()
}

// Whether the first n rows ascend and have no pair twice.
fn rows_ascend(n: usize, owners: &[[u8; 32]], epochs: &[u16], totals: &[u64]) -> bool
    requires { Room n (tables owners.now epochs.now totals.now) }
    ensures { result ≡ ascends (rows_in n (rows_were owners.now epochs.now totals.now)) }
{
    (1..n).all(|i| is_less(&owners[i - 1], epochs[i - 1], &owners[i], epochs[i]))
}

// Whether none of the first n totals is 0. No early exit: a loop of this shape can become vector code.
fn none_is_zero(n: usize, owners: &[[u8; 32]], epochs: &[u16], totals: &[u64]) -> bool
    requires { Room n (tables owners.now epochs.now totals.now) }
    ensures { result ≡ all_positive (rows_in n (rows_were owners.now epochs.now totals.now)) }
{
    let mut good = true;
    for total in &totals[..n] {
        good &= 0 < *total;
    }
    good
}

// Whether the first n rows stand in the slices, ascend, have no pair twice and no total 0.
#[tactic(auto, unfolding(totals_spec::specs::Calls::proper_table, rows_spec::specs::Rows::proper_rows))]
pub fn table_is_proper(n: usize, owners: &[[u8; 32]], epochs: &[u16], totals: &[u64]) -> bool
    ensures { result ≡ proper_table n (rows_were owners.now epochs.now totals.now) }
{
    totals_fit(n, owners, epochs, totals)
        && rows_ascend(n, owners, epochs, totals)
        && none_is_zero(n, owners, epochs, totals)
}

// Puts a row at a place.
pub fn put_total(
    owners: &mut [[u8; 32]],
    epochs: &mut [u16],
    totals: &mut [u64],
    at: usize,
    owner: [u8; 32],
    epoch: u16,
    total: u64,
)
    requires { Room (at + 1) (tables owners.old epochs.old totals.old) }
    ensures { rows_left owners.new epochs.new totals.new ≡ set_row (rows_were owners.old epochs.old totals.old) at (row owner epoch total) }
{
    owners[at] = owner;
    epochs[at] = epoch;
    totals[at] = total;
}
