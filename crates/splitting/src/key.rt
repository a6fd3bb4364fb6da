// Splitting a removal of key bytes: they make one section at the base.
ghost use Rattle.std.specs.Prelude.{◌≡◌};
ghost use Rattle.records_spec.specs.Answers.{flags_were};
ghost use Rattle.rows_spec.specs.Rows.{rows_were, rows_left};
ghost use Rattle.records_spec.specs.Outcomes.{after};
ghost use Rattle.rows_spec.specs.Calls.{told_removal};
ghost use Rattle.splitting_spec.specs.Calls.{split_key};

use records_spec::{Head, Refusal};
use rows_spec::{Removed, StorageRemovedBytes};

// Takes key bytes at the base, whatever their number is.
pub fn split_key_removed_bytes(
    flags: Head,
    epochs: &[u16],
    counts: &[u32],
    removed_key_bytes: u32,
    ids: &mut [[u8; 32]],
    row_epochs: &mut [u16],
    row_bytes: &mut [u32],
) -> Result<StorageRemovedBytes, Refusal>
    ensures { let flags_given = flags_were flags epochs.now counts.now in
        let rows_lent = rows_were ids.old row_epochs.old row_bytes.old in
        after (told_removal result) (rows_left ids.new row_epochs.new row_bytes.new) ≡ split_key flags_given removed_key_bytes rows_lent }
{
    if !records::is_proper(flags, epochs, counts) {
        return Err(Refusal::BadTable);
    }
    if removed_key_bytes == 0 {
        return Ok(StorageRemovedBytes {
            removed: Removed::None,
        });
    }
    if !rows::rows_fit(1, ids, row_epochs, row_bytes) {
        return Err(Refusal::NoRoom);
    }
    rows::put_row(
        ids,
        row_epochs,
        row_bytes,
        0,
        records::id_of(flags),
        flags.base,
        removed_key_bytes,
    );
    Ok(StorageRemovedBytes {
        removed: Removed::Sectioned(1),
    })
}
