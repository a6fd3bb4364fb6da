// Joining the rows of two removals from the back, so that the left one's tables can hold the join.
ghost use Rattle.std.specs.Prelude.{◌≡◌, ◌<◌, length};
ghost use Rattle.rows_spec.specs.Rows.{tables, rows_in, over_rows, Room, rows_were, rows_left};
ghost use Rattle.rows_spec.specs.Inner.Rows.{Proper};
ghost use Rattle.sums_spec.specs.Joins.{capped, joined};
ghost use Rattle.sums_spec.specs.Inner.Sums.{Last};

use std::cmp::Ordering;
use sums_spec::LastRow;

// Two numbers of bytes together, at most the largest.
pub fn saturating_add(m: u32, n: u32) -> u32
    ensures { result ≡ capped m n }
{
    m.saturating_add(n)
}

// The last row of the join of our first i rows and their first j, of which there is one.
fn last_row(
    ids: &[[u8; 32]],
    epochs: &[u16],
    bytes: &[u32],
    i: usize,
    rhs_ids: &[[u8; 32]],
    rhs_epochs: &[u16],
    rhs_bytes: &[u32],
    j: usize,
) -> LastRow
    requires proper { Proper i (tables ids.now epochs.now bytes.now) }
    requires proper_2 { Proper j (tables rhs_ids.now rhs_epochs.now rhs_bytes.now) }
    requires j_nonzero { 0 < j }
    ensures { Last (rows_were ids.now epochs.now bytes.now) (rows_were rhs_ids.now rhs_epochs.now rhs_bytes.now) i j result }
{
    let theirs = LastRow {
        id: rhs_ids[j - 1],
        epoch: rhs_epochs[j - 1],
        bytes: rhs_bytes[j - 1],
        i,
        j: j - 1,
    };
    if i == 0 {
        return theirs;
    }
    let ours = LastRow {
        id: ids[i - 1],
        epoch: epochs[i - 1],
        bytes: bytes[i - 1],
        i: i - 1,
        j,
    };
    match rows::compare_rows(ids, epochs, i - 1, rhs_ids, rhs_epochs, j - 1) {
        Ordering::Less => theirs,
        Ordering::Equal => LastRow {
            bytes: saturating_add(ours.bytes, theirs.bytes),
            j: j - 1,
            ..ours
        },
        Ordering::Greater => ours,
    }
}

// The number of rows of the join of our first n rows and their first m. Nothing is written.
pub fn count_joined(
    ids: &[[u8; 32]],
    epochs: &[u16],
    bytes: &[u32],
    n: usize,
    rhs_ids: &[[u8; 32]],
    rhs_epochs: &[u16],
    rhs_bytes: &[u32],
    m: usize,
) -> usize
    requires proper { Proper n (tables ids.now epochs.now bytes.now) }
    requires proper_2 { Proper m (tables rhs_ids.now rhs_epochs.now rhs_bytes.now) }
    ensures { result ≡ length (joined (rows_in n (rows_were ids.now epochs.now bytes.now)) (rows_in m (rows_were rhs_ids.now rhs_epochs.now rhs_bytes.now))) }
{
    let mut i = n;
    let mut j = m;
    let mut count: usize = 0;
    // A `while`: a step moves either place, or both.
    while 0 < j {
        let last = last_row(ids, epochs, bytes, i, rhs_ids, rhs_epochs, rhs_bytes, j);
        i = last.i;
        j = last.j;
        count += 1;
    }
    count + i
}

// Joins their first m rows to our first n, in place. The join has `count` rows, for which there is room.
pub fn join_in_place(
    ids: &mut [[u8; 32]],
    epochs: &mut [u16],
    bytes: &mut [u32],
    n: usize,
    rhs_ids: &[[u8; 32]],
    rhs_epochs: &[u16],
    rhs_bytes: &[u32],
    m: usize,
    count: usize,
)
    requires proper { Proper n (tables ids.old epochs.old bytes.old) }
    requires proper_2 { Proper m (tables rhs_ids.now rhs_epochs.now rhs_bytes.now) }
    requires count_value { let rows_lent = tables ids.old epochs.old bytes.old in
        let rhs_rows = tables rhs_ids.now rhs_epochs.now rhs_bytes.now in
        count ≡ length (joined (rows_in n rows_lent) (rows_in m rhs_rows)) }
    requires room { Room count (tables ids.old epochs.old bytes.old) }
    ensures { let rows_lent = rows_were ids.old epochs.old bytes.old in
        let rhs_rows = rows_were rhs_ids.now rhs_epochs.now rhs_bytes.now in
        rows_left ids.new epochs.new bytes.new ≡ over_rows (joined (rows_in n rows_lent) (rows_in m rhs_rows)) rows_lent }
{
    let mut i = n;
    let mut j = m;
    let mut k = count;
    // A `while`: a step moves either place, or both.
    while 0 < j {
        let last = last_row(ids, epochs, bytes, i, rhs_ids, rhs_epochs, rhs_bytes, j);
        i = last.i;
        j = last.j;
        k -= 1;
        rows::put_row(ids, epochs, bytes, k, last.id, last.epoch, last.bytes);
    }
}
