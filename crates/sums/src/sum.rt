// The sum of two removals, in place: the left one's tables are lent, and have the sum's rows, if it has any, at their start.
ghost use Rattle.std.specs.Prelude.{◌≡◌, ◌≤◌, true, nat_eq, length};
ghost use Rattle.std.specs.Cmp.Lexicographic.{pointwise};
ghost use Rattle.std.specs.List.{prefix_len};
ghost use Rattle.records_spec.specs.Flags.{zeros};
ghost use Rattle.rows_spec.specs.Rows.{tables, rows_in, rows_were, rows_left};
ghost use Rattle.rows_spec.specs.Inner.Rows.{Proper};
ghost use Rattle.rows_spec.specs.Removals.{sectioned, removal_in, proper_in, holding_rows};
ghost use Rattle.records_spec.specs.Outcomes.{ok, after};
ghost use Rattle.rows_spec.specs.Calls.{told_removal, placing_removal};
ghost use Rattle.sums_spec.specs.Joins.{add_row, joined};
ghost use Rattle.sums_spec.specs.Sums.{unknown, basic_plus, sum};
ghost use Rattle.sums_spec.specs.Calls.{summed};

use records_spec::{OWNER_LENGTH, Refusal};
use rows_spec::{Removed, StorageRemovedBytes};

// The epoch of bytes of which none is known.
const UNKNOWN_EPOCH: u16 = 65535;

// Adds the right one's first m rows to our first n: counted first, then refused or joined.
fn add_rows(
    ids: &mut [[u8; 32]],
    epochs: &mut [u16],
    bytes: &mut [u32],
    n: usize,
    rhs_ids: &[[u8; 32]],
    rhs_epochs: &[u16],
    rhs_bytes: &[u32],
    m: usize,
) -> Result<StorageRemovedBytes, Refusal>
    requires proper { Proper n (tables ids.old epochs.old bytes.old) }
    requires proper_2 { Proper m (tables rhs_ids.now rhs_epochs.now rhs_bytes.now) }
    ensures { let rows_lent = rows_were ids.old epochs.old bytes.old in
        let rhs_rows = rows_were rhs_ids.now rhs_epochs.now rhs_bytes.now in
        after (told_removal result) (rows_left ids.new epochs.new bytes.new)
        ≡ placing_removal (sectioned (joined (rows_in n rows_lent) (rows_in m rhs_rows))) rows_lent }
{
    let count = sums_joining::count_joined(
        ids, epochs, bytes, n, rhs_ids, rhs_epochs, rhs_bytes, m,
    );
    if !rows::rows_fit(count, ids, epochs, bytes) {
        return Err(Refusal::NoRoom);
    }
    sums_joining::join_in_place(
        ids, epochs, bytes, n, rhs_ids, rhs_epochs, rhs_bytes, m, count,
    );
    done(Removed::Sectioned(count))
}

// A state as an answer.
fn done(removed: Removed) -> Result<StorageRemovedBytes, Refusal>
    ensures { told_removal result ≡ ok removed }
{
    Ok(StorageRemovedBytes { removed })
}

// Adds a number to our first n rows, at 32 zero bytes and epoch 65,535.
fn add_basic(
    ids: &mut [[u8; 32]],
    epochs: &mut [u16],
    bytes: &mut [u32],
    n: usize,
    removed_bytes: u32,
) -> Result<StorageRemovedBytes, Refusal>
    requires { Proper n (tables ids.old epochs.old bytes.old) }
    ensures { let rows_lent = rows_were ids.old epochs.old bytes.old in
        after (told_removal result) (rows_left ids.new epochs.new bytes.new)
        ≡ placing_removal (sectioned (add_row (unknown removed_bytes) (rows_in n rows_lent))) rows_lent }
{
    add_rows(
        ids,
        epochs,
        bytes,
        n,
        &[[0; OWNER_LENGTH]],
        &[UNKNOWN_EPOCH],
        &[removed_bytes],
        1,
    )
}

// How many of some identifiers are zero, from the front on. Of ascending rows these are all that are.
fn count_zeros(ids: &[[u8; 32]]) -> usize
    ensures value { result ≡ prefix_len (λ id. pointwise nat_eq id zeros) ids.now }
    ensures within { result ≤ length ids.now }
{
    ids.iter()
        .take_while(|id| **id == [0; OWNER_LENGTH])
        .count()
}

// Adds the right one's first m rows to a number, whose row is made: the rows are put into our tables, and the number's row is joined to them.
fn add_rows_to_basic(
    removed_bytes: u32,
    ids: &mut [[u8; 32]],
    epochs: &mut [u16],
    bytes: &mut [u32],
    rhs_ids: &[[u8; 32]],
    rhs_epochs: &[u16],
    rhs_bytes: &[u32],
    m: usize,
) -> Result<StorageRemovedBytes, Refusal>
    requires { Proper m (tables rhs_ids.now rhs_epochs.now rhs_bytes.now) }
    ensures { let rhs_rows = rows_were rhs_ids.now rhs_epochs.now rhs_bytes.now in
        let rows_lent = rows_were ids.old epochs.old bytes.old in
        after (told_removal result) (rows_left ids.new epochs.new bytes.new)
        ≡ placing_removal (sectioned (add_row (unknown removed_bytes) (rows_in m rhs_rows))) rows_lent }
{
    let row_id = [[0; OWNER_LENGTH]];
    let row_epoch = [UNKNOWN_EPOCH];
    let row_bytes = [removed_bytes];
    let count = sums_joining::count_joined(
        rhs_ids, rhs_epochs, rhs_bytes, m, &row_id, &row_epoch, &row_bytes, 1,
    );
    if !rows::rows_fit(count, ids, epochs, bytes) {
        return Err(Refusal::NoRoom);
    }
    sums_joining::join_in_place(ids, epochs, bytes, 0, rhs_ids, rhs_epochs, rhs_bytes, m, m);
    sums_joining::join_in_place(
        ids, epochs, bytes, m, &row_id, &row_epoch, &row_bytes, 1, count,
    );
    done(Removed::Sectioned(count))
}

// The same at a version: at 0, if any row has the zero identifier, all of them are lost and the number too.
fn add_rows_to_basic_for_version(
    removed_bytes: u32,
    ids: &mut [[u8; 32]],
    epochs: &mut [u16],
    bytes: &mut [u32],
    rhs_ids: &[[u8; 32]],
    rhs_epochs: &[u16],
    rhs_bytes: &[u32],
    m: usize,
    version: u16,
) -> Result<StorageRemovedBytes, Refusal>
    requires { Proper m (tables rhs_ids.now rhs_epochs.now rhs_bytes.now) }
    ensures { let rhs_rows = rows_were rhs_ids.now rhs_epochs.now rhs_bytes.now in
        let rows_lent = rows_were ids.old epochs.old bytes.old in
        after (told_removal result) (rows_left ids.new epochs.new bytes.new)
        ≡ placing_removal (sectioned (basic_plus version removed_bytes (rows_in m rhs_rows))) rows_lent }
{
    if version == 0 {
        let lost = count_zeros(&rhs_ids[..m]);
        if 0 < lost {
            return add_rows(
                ids,
                epochs,
                bytes,
                0,
                &rhs_ids[lost..],
                &rhs_epochs[lost..],
                &rhs_bytes[lost..],
                m - lost,
            );
        }
    }
    add_rows_to_basic(
        removed_bytes,
        ids,
        epochs,
        bytes,
        rhs_ids,
        rhs_epochs,
        rhs_bytes,
        m,
    )
}

// The sum of two proper removals.
fn add_proper(
    lhs: Removed,
    ids: &mut [[u8; 32]],
    epochs: &mut [u16],
    bytes: &mut [u32],
    rhs: Removed,
    rhs_ids: &[[u8; 32]],
    rhs_epochs: &[u16],
    rhs_bytes: &[u32],
    version: u16,
) -> Result<StorageRemovedBytes, Refusal>
    requires bytes_value { proper_in lhs (tables ids.old epochs.old bytes.old) ≡ true }
    requires rhs_bytes_value { proper_in rhs (tables rhs_ids.now rhs_epochs.now rhs_bytes.now) ≡ true }
    ensures { let rows_lent = rows_were ids.old epochs.old bytes.old in
        let rhs_rows = rows_were rhs_ids.now rhs_epochs.now rhs_bytes.now in
        after (told_removal result) (rows_left ids.new epochs.new bytes.new)
        ≡ placing_removal (sum version (removal_in lhs rows_lent) (removal_in rhs rhs_rows)) rows_lent }
{
    match (lhs, rhs) {
        (Removed::None, Removed::None) => done(Removed::None),
        (Removed::None, Removed::Basic(n)) => done(Removed::Basic(n)),
        (Removed::None, Removed::Sectioned(m)) => {
            add_rows(ids, epochs, bytes, 0, rhs_ids, rhs_epochs, rhs_bytes, m)
        }
        (Removed::Basic(n), Removed::None) => done(Removed::Basic(n)),
        (Removed::Basic(n), Removed::Basic(more)) => done(Removed::Basic(n.saturating_add(more))),
        (Removed::Basic(more), Removed::Sectioned(m)) => add_rows_to_basic_for_version(
            more, ids, epochs, bytes, rhs_ids, rhs_epochs, rhs_bytes, m, version,
        ),
        (Removed::Sectioned(n), Removed::None) => done(Removed::Sectioned(n)),
        (Removed::Sectioned(n), Removed::Basic(more)) => add_basic(ids, epochs, bytes, n, more),
        (Removed::Sectioned(n), Removed::Sectioned(m)) => {
            add_rows(ids, epochs, bytes, n, rhs_ids, rhs_epochs, rhs_bytes, m)
        }
    }
}

// Adds the right removal to the left one, in the left one's tables.
pub fn add_assign(
    lhs: StorageRemovedBytes,
    ids: &mut [[u8; 32]],
    epochs: &mut [u16],
    bytes: &mut [u32],
    rhs: StorageRemovedBytes,
    rhs_ids: &[[u8; 32]],
    rhs_epochs: &[u16],
    rhs_bytes: &[u32],
    version: u16,
) -> Result<StorageRemovedBytes, Refusal>
    ensures { let rows_lent = rows_were ids.old epochs.old bytes.old in
        let rhs_rows = rows_were rhs_ids.now rhs_epochs.now rhs_bytes.now in
        let removal_given = holding_rows lhs.removed rows_lent in
        let rhs_removal = holding_rows rhs.removed rhs_rows in
        after (told_removal result) (rows_left ids.new epochs.new bytes.new) ≡ summed version removal_given rhs_removal }
{
    if rows::removal_is_proper(lhs.removed, ids, epochs, bytes)
        && rows::removal_is_proper(rhs.removed, rhs_ids, rhs_epochs, rhs_bytes)
    {
        add_proper(
            lhs.removed,
            ids,
            epochs,
            bytes,
            rhs.removed,
            rhs_ids,
            rhs_epochs,
            rhs_bytes,
            version,
        )
    } else {
        Err(Refusal::BadTable)
    }
}
