// The order of rows: by identifier, byte by byte, then by epoch.
ghost use Rattle.std.specs.Prelude.{◌≡◌, ◌<◌, [], length, get_or};
ghost use Rattle.rows_spec.specs.Order.{order};
ghost use Rattle.rows_spec.specs.Rows.{row, compared};

use std::cmp::Ordering;

// Identifiers of different owners mostly differ within so many bytes.
const FIRST_BYTES: usize = 2;

// The comparison of slices, which looks at eight bytes at once: quick where many are the same. Kept apart from what calls it, so that this stays
// small enough to stand in its callers' loops.
#[inline(never)]
fn compare_slices(a: &[u8], b: &[u8]) -> Ordering
    ensures { result ≡ order a.now b.now }
{
    a.cmp(b)
}

// How two identifiers stand to each other, byte by byte.
pub fn compare_ids(a: &[u8], b: &[u8]) -> Ordering
    ensures { result ≡ order a.now b.now }
{
    for k in 0..FIRST_BYTES.min(a.len()).min(b.len()) {
        if a[k] < b[k] {
            return Ordering::Less;
        }
        if b[k] < a[k] {
            return Ordering::Greater;
        }
    }
    compare_slices(a, b)
}

// How row i of some tables stands to row j of others: by identifier, then by epoch.
pub fn compare_rows(
    ids: &[[u8; 32]],
    epochs: &[u16],
    i: usize,
    other_ids: &[[u8; 32]],
    other_epochs: &[u16],
    j: usize,
) -> Ordering
    requires i_in_bounds { (i < length ids.now) × (i < length epochs.now) }
    requires j_in_bounds { (j < length other_ids.now) × (j < length other_epochs.now) }
    ensures { result ≡ compared (row (get_or ids.now i []) (get_or epochs.now i 0) 0) (row (get_or other_ids.now j []) (get_or other_epochs.now j 0) 0) }
{
    compare_ids(&ids[i], &other_ids[j]).then_with(|| epochs[i].cmp(&other_epochs[j]))
}
