// Finding a row by halves.
ghost use Rattle.std.specs.Prelude.{◌≡◌, [], ◌+◌, ◌<◌, length, get_or};
ghost use Rattle.rows_spec.specs.Order.{is_less};
ghost use Rattle.rows_spec.specs.Rows.{row, compared, tables, rows_were};
ghost use Rattle.totals_spec.specs.Inner.Steps.{place_in, rows_between, spot_in, Standing};

use crate::words::is_less;
use totals_spec::RowSpot;

// Whether row i is below an owner and epoch.
fn is_below(owners: &[[u8; 32]], epochs: &[u16], i: usize, owner: [u8; 32], epoch: u16) -> bool
    requires { (i < length owners.now) × (i < length epochs.now) }
    ensures { result ≡ is_less (compared (row (get_or owners.now i []) (get_or epochs.now i 0) 0) (row owner epoch 0)) }
{
    is_less(&owners[i], epochs[i], &owner, epoch)
}

// The place of an owner and epoch among the rows from one place up to another: where their row stands, or where it would stand. Each
// look at the middle leaves half of the `left` places from `at` on. `partition_point` sees one slice, and a row is in two.
fn find_row(
    owners: &[[u8; 32]],
    epochs: &[u16],
    totals: &[u64],
    from: usize,
    upto: usize,
    owner: [u8; 32],
    epoch: u16,
) -> usize
    requires { Standing from upto (tables owners.now epochs.now totals.now) }
    ensures { result ≡ from + place_in (row owner epoch 0) (rows_between from upto (rows_were owners.now epochs.now totals.now)) }
{
    let mut at = from;
    let mut left = upto - from;
    while 1 < left {
        let half = left / 2;
        left -= half;
        if is_below(owners, epochs, at + half, owner, epoch) {
            at += half;
        }
    }
    if at < upto && is_below(owners, epochs, at, owner, epoch) {
        at + 1
    } else {
        at
    }
}

// Looks up an owner and epoch among the rows from one place up to another.
pub fn look_up_row(
    owners: &[[u8; 32]],
    epochs: &[u16],
    totals: &[u64],
    from: usize,
    upto: usize,
    owner: [u8; 32],
    epoch: u16,
) -> RowSpot
    requires { Standing from upto (tables owners.now epochs.now totals.now) }
    ensures { result ≡ spot_in from (row owner epoch 0) (rows_between from upto (rows_were owners.now epochs.now totals.now)) }
{
    let place = find_row(owners, epochs, totals, from, upto, owner, epoch);
    if place < upto && owners[place] == owner && epochs[place] == epoch {
        RowSpot {
            place,
            total: totals[place],
        }
    } else {
        RowSpot { place, total: 0 }
    }
}
