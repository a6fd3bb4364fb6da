// Splitting a removal of value bytes into sections, with the Rust's names where it has them.
ghost use Rattle.std.specs.Prelude.{◌≡◌, length};
ghost use Rattle.records_spec.specs.Answers.{flags_were, records_were};
ghost use Rattle.records_spec.specs.Tables.{records_of};
ghost use Rattle.rows_spec.specs.Rows.{tables, Room, rows_were, rows_left};
ghost use Rattle.records_spec.specs.Outcomes.{after};
ghost use Rattle.splitting_spec.specs.Sections.{split};
ghost use Rattle.splitting_spec.specs.Calls.{value_part, PlacedRemoval, split_value, told_split};

use crate::giving::{gives, visit};
use records_spec::{Head, OwnerId, Refusal};
use rows_spec::{Removed, StorageRemovedBytes};
use splitting_spec::ValueSplit;

// Bytes in sections at the records, from the latest down while bytes are left, and the rest at the base. They make so many rows, which
// are put from the back.
fn sectioned_storage_removal(
    removed_bytes: u32,
    base: u16,
    id: OwnerId,
    epochs: &[u16],
    counts: &[u32],
    rows: usize,
    ids: &mut [[u8; 32]],
    row_epochs: &mut [u16],
    row_bytes: &mut [u32],
) -> StorageRemovedBytes
    requires epochs_len { length epochs.now ≡ length counts.now }
    requires rows_value { rows ≡ length (split base (records_of epochs.now counts.now) removed_bytes) }
    requires room { Room rows (tables ids.old row_epochs.old row_bytes.old) }
    ensures { let rows_lent = rows_were ids.old row_epochs.old row_bytes.old in
        let records_given = records_were epochs.now counts.now in
        PlacedRemoval (value_part id base records_given removed_bytes) result.removed rows_lent (rows_left ids.new row_epochs.new row_bytes.new) }
{
    if removed_bytes == 0 {
        return StorageRemovedBytes {
            removed: Removed::None,
        };
    }
    let mut left = removed_bytes;
    // The place of a row steps down with the turns, which end early where nothing is left.
    let mut k = rows;
    for (epoch, count) in epochs.iter().rev().zip(counts.iter().rev()) {
        if left == 0 {
            break;
        }
        let given = gives(left, *count);
        k -= 1;
        rows::put_row(ids, row_epochs, row_bytes, k, id, *epoch, given);
        left -= given;
    }
    if 0 < left {
        rows::put_row(ids, row_epochs, row_bytes, 0, id, base, left);
    }
    StorageRemovedBytes {
        removed: Removed::Sectioned(rows),
    }
}

// Splits value bytes from the latest record down, if their rows have room. They are counted before anything is written.
pub fn split_value_removed_bytes(
    flags: Head,
    epochs: &[u16],
    counts: &[u32],
    removed_value_bytes: u32,
    ids: &mut [[u8; 32]],
    row_epochs: &mut [u16],
    row_bytes: &mut [u32],
) -> Result<ValueSplit, Refusal>
    ensures { let flags_given = flags_were flags epochs.now counts.now in
        let rows_lent = rows_were ids.old row_epochs.old row_bytes.old in
        after (told_split result) (rows_left ids.new row_epochs.new row_bytes.new) ≡ split_value flags_given removed_value_bytes rows_lent }
{
    if !records::is_proper(flags, epochs, counts) {
        return Err(Refusal::BadTable);
    }
    let epochs = &epochs[..flags.records];
    let counts = &counts[..flags.records];
    let visited = visit(epochs, counts, removed_value_bytes);
    let rows = visited.records + usize::from(0 < visited.left);
    if !rows::rows_fit(rows, ids, row_epochs, row_bytes) {
        return Err(Refusal::NoRoom);
    }
    let removal = sectioned_storage_removal(
        removed_value_bytes,
        flags.base,
        records::id_of(flags),
        epochs,
        counts,
        rows,
        ids,
        row_epochs,
        row_bytes,
    );
    Ok(ValueSplit {
        removal,
        visited: visited.records,
    })
}
