// What was removed: the state beside its rows, whether it is proper, and what it comes to.
ghost use Rattle.std.specs.Prelude.{◌≡◌, ◌<◌, ◌≤◌, sum, nat_lt, MatchOption};
ghost use Rattle.std.specs.List.{list_any};
ghost use Rattle.fields_spec.specs.Varint.{largest};
ghost use Rattle.records_spec.specs.Outcomes.{answered};
ghost use Rattle.rows_spec.specs.Rows.{rows_were};
ghost use Rattle.rows_spec.specs.Removals.{proper_in, holding_rows};
ghost use Rattle.rows_spec.specs.Calls.{has_removal, total_removed};

use crate::row;
use records_spec::Refusal;
use rows_spec::{Removed, StorageRemovedBytes};

// Whether a removal and its tables are proper.
pub fn removal_is_proper(removed: Removed, ids: &[[u8; 32]], epochs: &[u16], bytes: &[u32]) -> bool
    ensures { result ≡ proper_in removed (rows_were ids.now epochs.now bytes.now) }
{
    match removed {
        Removed::None | Removed::Basic(_) => true,
        Removed::Sectioned(n) => row::are_proper(n, ids, epochs, bytes),
    }
}

// Whether one of some numbers of bytes is not 0.
fn any_bytes(counts: &[u32]) -> bool
    ensures { result ≡ list_any (λ n. nat_lt 0 n) counts.now }
{
    counts.iter().any(|count| 0 < *count)
}

// Whether anything was removed.
pub fn has_removal(
    removal: StorageRemovedBytes,
    ids: &[[u8; 32]],
    epochs: &[u16],
    bytes: &[u32],
) -> Result<bool, Refusal>
    ensures { answered result ≡ has_removal (holding_rows removal.removed (rows_were ids.now epochs.now bytes.now)) }
{
    if removal_is_proper(removal.removed, ids, epochs, bytes) {
        Ok(match removal.removed {
            Removed::None => false,
            Removed::Basic(n) => 0 < n,
            Removed::Sectioned(n) => any_bytes(&bytes[..n]),
        })
    } else {
        Err(Refusal::BadTable)
    }
}

// Some numbers of bytes together, where they do not pass 32 bits.
fn checked_sum(counts: &[u32]) -> Option<u32>
    ensures { MatchOption result (largest < sum counts.now) (λ total. (total ≡ sum counts.now) × (total ≤ largest)) }
{
    let mut total: u32 = 0;
    for count in counts {
        total = total.checked_add(*count)?;
    }
    Some(total)
}

// All bytes of a removal.
pub fn total_removed_bytes(
    removal: StorageRemovedBytes,
    ids: &[[u8; 32]],
    epochs: &[u16],
    bytes: &[u32],
) -> Result<u32, Refusal>
    ensures { answered result ≡ total_removed (holding_rows removal.removed (rows_were ids.now epochs.now bytes.now)) }
{
    if !removal_is_proper(removal.removed, ids, epochs, bytes) {
        return Err(Refusal::BadTable);
    }
    match removal.removed {
        Removed::None => Ok(0),
        Removed::Basic(n) => Ok(n),
        Removed::Sectioned(n) => checked_sum(&bytes[..n]).ok_or(Refusal::TotalTooLarge),
    }
}
