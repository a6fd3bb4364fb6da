// Reading flag bytes: the head, and the records by way of blocks.
ghost use Rattle.std.specs.Prelude.{◌≡◌, true, false, List, ℕ};
ghost use Rattle.records_spec.specs.Flags.{multi, lending};
ghost use Rattle.records_spec.specs.Answers.{shown, tables_were, tables_left};
ghost use Rattle.records_spec.specs.Outcomes.{refused};
ghost use Rattle.records_spec.specs.declared.head.Kind.TheVariants.{SingleEpoch, MultiEpoch, SingleEpochOwned, MultiEpochOwned};
ghost use Rattle.codec_spec.specs.Calls.{deserialized_as, deserialized};

use codec_judging::{base_in, head_in, head_size, read_blocks};
use records_spec::{Head, Kind, Refusal};

// Reads flags of kind 1 or 3.
fn read_multi(
    kind: Kind,
    src: &[u8],
    epochs: &mut [u16],
    counts: &mut [u32],
) -> Result<Option<Head>, Refusal>
    requires { multi kind ≡ true }
    ensures { shown result (tables_left epochs.new counts.new) ≡ deserialized_as kind src.now (tables_were epochs.old counts.old) }
{
    let size = head_size(kind);
    if src.len() < size {
        return Err(Refusal::WrongSize);
    }
    let base = base_in(kind, src);
    match read_blocks(src, size, base, 0, epochs, counts) {
        Err(fault) => Err(fault.refusal),
        Ok(0) => Err(Refusal::WrongSize),
        Ok(n) => Ok(Some(head_in(kind, src, n))),
    }
}

// Reads flags of kind 0 or 2, which have no records: whatever tables are lent, they stay as they are.
fn read_single(kind: Kind, src: &[u8]) -> Result<Option<Head>, Refusal>
    requires { multi kind ≡ false }
    ensures { (es cs : List ℕ) → shown result (lending es cs) ≡ deserialized_as kind src.now (lending es cs) }
{
    if src.len() == head_size(kind) {
        Ok(Some(head_in(kind, src, 0)))
    } else {
        Err(Refusal::WrongSize)
    }
}

// Reads flags of a kind, without a look at byte 0.
fn read_as(
    kind: Kind,
    src: &[u8],
    epochs: &mut [u16],
    counts: &mut [u32],
) -> Result<Option<Head>, Refusal>
    ensures { shown result (tables_left epochs.new counts.new) ≡ deserialized_as kind src.now (tables_were epochs.old counts.old) }
{
    if records::is_multi(kind) {
        read_multi(kind, src, epochs, counts)
    } else {
        read_single(kind, src)
    }
}

// Reads flags of kind 0, whatever byte 0 says.
pub fn deserialize_single_epoch(
    src: &[u8],
    epochs: &mut [u16],
    counts: &mut [u32],
) -> Result<Option<Head>, Refusal>
    ensures { shown result (tables_left epochs.new counts.new) ≡ deserialized_as SingleEpoch src.now (tables_were epochs.old counts.old) }
{
    read_as(Kind::SingleEpoch, src, epochs, counts)
}

// Reads flags of kind 1, whatever byte 0 says.
pub fn deserialize_multi_epoch(
    src: &[u8],
    epochs: &mut [u16],
    counts: &mut [u32],
) -> Result<Option<Head>, Refusal>
    ensures { shown result (tables_left epochs.new counts.new) ≡ deserialized_as MultiEpoch src.now (tables_were epochs.old counts.old) }
{
    read_as(Kind::MultiEpoch, src, epochs, counts)
}

// Reads flags of kind 2, whatever byte 0 says.
pub fn deserialize_single_epoch_owned(
    src: &[u8],
    epochs: &mut [u16],
    counts: &mut [u32],
) -> Result<Option<Head>, Refusal>
    ensures { shown result (tables_left epochs.new counts.new) ≡ deserialized_as SingleEpochOwned src.now (tables_were epochs.old counts.old) }
{
    read_as(Kind::SingleEpochOwned, src, epochs, counts)
}

// Reads flags of kind 3, whatever byte 0 says.
pub fn deserialize_multi_epoch_owned(
    src: &[u8],
    epochs: &mut [u16],
    counts: &mut [u32],
) -> Result<Option<Head>, Refusal>
    ensures { shown result (tables_left epochs.new counts.new) ≡ deserialized_as MultiEpochOwned src.now (tables_were epochs.old counts.old) }
{
    read_as(Kind::MultiEpochOwned, src, epochs, counts)
}

// Reads flags of the kind that byte 0 names. Their records go to the start of the two tables.
pub fn deserialize(
    src: &[u8],
    epochs: &mut [u16],
    counts: &mut [u32],
) -> Result<Option<Head>, Refusal>
    ensures { shown result (tables_left epochs.new counts.new) ≡ deserialized src.now (tables_were epochs.old counts.old) }
{
    if src.is_empty() {
        return Ok(None);
    }
    let kind = Kind::try_from(src[0])?;
    read_as(kind, src, epochs, counts)
}
