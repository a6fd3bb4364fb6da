// The sections of a removal beside the records: whose they are, which is at fault, and what stays of a record.
ghost use Rattle.std.specs.Prelude.{◌≡◌};
ghost use Rattle.records_spec.specs.Answers.{records_were};
ghost use Rattle.records_spec.specs.Tables.{◌⦂◌, union};
ghost use Rattle.records_spec.specs.Inner.Tables.{Table};
ghost use Rattle.rows_spec.specs.Rows.{tables, rows_in, Room, rows_were};
ghost use Rattle.removal_spec.specs.Removing.{only_under_lem, all_fine, lessened, fine};
ghost use Rattle.removal_spec.specs.Inner.Findings.{standing_at, faulted, rested};

use records_spec::{OwnerId, Refusal};
use splitting::MINIMUM_NON_BASE_FLAGS_SIZE;

// Whether the first n rows have one identifier, and it is this.
pub fn only_under(id: OwnerId, n: usize, ids: &[[u8; 32]], epochs: &[u16], bytes: &[u32]) -> bool
    requires { Room n (tables ids.now epochs.now bytes.now) }
    ensures { result ≡ only_under_lem id (rows_in n (rows_were ids.now epochs.now bytes.now)) }
{
    0 < n
        && ids[..n]
            .iter()
            .all(|row_id| records::same_owner(*row_id, id))
}

// The count of the record at an epoch, or none.
pub fn find_at(epochs: &[u16], counts: &[u32], epoch: u16) -> Option<u32>
    requires { Table epochs.now counts.now }
    ensures { result ≡ standing_at epoch (records_were epochs.now counts.now) }
{
    let spot = records::look_up(epochs, counts, epoch);
    (spot.below < spot.upto).then_some(spot.count)
}

// The count of the union's record at an epoch, or none: theirs stands, else ours.
fn find_in_union(
    our_epochs: &[u16],
    our_counts: &[u32],
    their_epochs: &[u16],
    their_counts: &[u32],
    epoch: u16,
) -> Option<u32>
    requires table { Table our_epochs.now our_counts.now }
    requires table_2 { Table their_epochs.now their_counts.now }
    ensures { result ≡ standing_at epoch (union (records_were our_epochs.now our_counts.now) (records_were their_epochs.now their_counts.now)) }
{
    find_at(their_epochs, their_counts, epoch).or_else(|| find_at(our_epochs, our_counts, epoch))
}

// The fault of one section, the base skipped: there is no record at its epoch, or the record holds less.
fn judge_section(
    base: u16,
    our_epochs: &[u16],
    our_counts: &[u32],
    their_epochs: &[u16],
    their_counts: &[u32],
    epoch: u16,
    bytes: u32,
) -> Result<(), Refusal>
    requires table { Table our_epochs.now our_counts.now }
    requires table_2 { Table their_epochs.now their_counts.now }
    ensures { let our_records = records_were our_epochs.now our_counts.now in
        let their_records = records_were their_epochs.now their_counts.now in
        faulted result ≡ fine base (union our_records their_records) (epoch ⦂ bytes) }
{
    if epoch == base {
        return Ok(());
    }
    match find_in_union(our_epochs, our_counts, their_epochs, their_counts, epoch) {
        None => Err(Refusal::NoStorageAtEpoch),
        Some(count) if count < bytes => Err(Refusal::Overflow),
        Some(_) => Ok(()),
    }
}

// The fault of the first section at fault, in ascending epoch order.
pub fn judge_sections(
    base: u16,
    our_epochs: &[u16],
    our_counts: &[u32],
    their_epochs: &[u16],
    their_counts: &[u32],
    epochs: &[u16],
    bytes: &[u32],
) -> Result<(), Refusal>
    requires table { Table our_epochs.now our_counts.now }
    requires table_2 { Table their_epochs.now their_counts.now }
    requires table_3 { Table epochs.now bytes.now }
    ensures { let our_records = records_were our_epochs.now our_counts.now in
        let their_records = records_were their_epochs.now their_counts.now in
        let records_given = records_were epochs.now bytes.now in
        faulted result ≡ all_fine base (union our_records their_records) records_given }
{
    for (epoch, taken) in epochs.iter().zip(bytes) {
        judge_section(
            base,
            our_epochs,
            our_counts,
            their_epochs,
            their_counts,
            *epoch,
            *taken,
        )?;
    }
    Ok(())
}

// What stays of a record after its section, if it has one, also one of 0: with 3 or less left it is dropped.
pub fn remove_from(epochs: &[u16], bytes: &[u32], epoch: u16, count: u32) -> Option<u32>
    requires { Table epochs.now bytes.now }
    ensures { rested epoch result ≡ lessened (records_were epochs.now bytes.now) (epoch ⦂ count) }
{
    match find_at(epochs, bytes, epoch) {
        None => Some(count),
        Some(taken) => {
            let left = count.saturating_sub(taken);
            (MINIMUM_NON_BASE_FLAGS_SIZE < left).then_some(left)
        }
    }
}
