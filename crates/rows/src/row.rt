// The three tables of rows: place i of them holds an identifier, an epoch and a number of bytes.
ghost use Rattle.std.specs.Prelude.{◌≡◌, ◌+◌};
ghost use Rattle.rows_spec.specs.Rows.{row, tables, room_in, proper_rows, set_row, Room, rows_were, rows_left};

use crate::order;

// Whether n rows have room in all three tables.
pub fn rows_fit(n: usize, ids: &[[u8; 32]], epochs: &[u16], bytes: &[u32]) -> bool
    ensures { result ≡ room_in n (rows_were ids.now epochs.now bytes.now) }
{
    n <= ids.len() && n <= epochs.len() && n <= bytes.len()
}

// Whether the first n rows stand in the tables, ascend and have no pair twice.
pub fn are_proper(n: usize, ids: &[[u8; 32]], epochs: &[u16], bytes: &[u32]) -> bool
    ensures { result ≡ proper_rows n (rows_were ids.now epochs.now bytes.now) }
{
    if !rows_fit(n, ids, epochs, bytes) {
        return false;
    }
    for i in 1..n {
        if !order::compare_rows(ids, epochs, i - 1, ids, epochs, i).is_lt() {
            return false;
        }
    }
    true
}

// Puts a row at a place.
pub fn put_row(
    ids: &mut [[u8; 32]],
    epochs: &mut [u16],
    bytes: &mut [u32],
    at: usize,
    id: [u8; 32],
    epoch: u16,
    count: u32,
)
    requires { Room (at + 1) (tables ids.old epochs.old bytes.old) }
    ensures { rows_left ids.new epochs.new bytes.new ≡ set_row (rows_were ids.old epochs.old bytes.old) at (row id epoch count) }
{
    ids[at] = id;
    epochs[at] = epoch;
    bytes[at] = count;
}
