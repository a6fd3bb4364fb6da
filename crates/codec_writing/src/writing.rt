// Writing flag bytes.
ghost use Rattle.std.specs.Prelude.{◌≡◌, ◌+◌, ◌≤◌, length};
ghost use Rattle.fields_spec.specs.Writing.{Put};
ghost use Rattle.records_spec.specs.Flags.{owner_of};
ghost use Rattle.codec_spec.specs.Bytes.{owner_bytes, head_bytes, records_bytes, unowned_head};
ghost use Rattle.codec_spec.specs.Inner.Sizes.{counts_size};
ghost use Rattle.codec_spec.specs.Calls.{serialized};
ghost use Rattle.records_spec.specs.Outcomes.{after, answered};
ghost use Rattle.records_spec.specs.Answers.{flags_were, records_were};

use crate::sizes::{bytes_fit, head_bytes_size};
use codec_spec::BEHIND_KIND;
use records_spec::{Head, OWNER_LENGTH, OwnerId, Refusal};

// Writes the owner's bytes at `at`; answers the place behind them.
fn put_owner(out: &mut [u8], at: usize, owner: OwnerId) -> usize
    requires { at + length owner ≤ length out.old }
    ensures { Put owner at result out.old out.new }
{
    let behind = at + OWNER_LENGTH;
    out[at..behind].copy_from_slice(&owner);
    behind
}

// Writes what stands before the records at the start of `out`; answers the place behind it.
fn put_head(out: &mut [u8], head: Head) -> usize
    requires { unowned_head + length (owner_bytes (owner_of head)) ≤ length out.old }
    ensures { Put (head_bytes head.kind (owner_of head) head.base) 0 result out.old out.new }
{
    out[0] = u8::from(head.kind);
    let at = if records::is_owned(head.kind) {
        put_owner(out, BEHIND_KIND, head.owner)
    } else {
        BEHIND_KIND
    };
    fields::put_be16(out, at, head.base)
}

// Writes records at `at`; answers the place behind them.
fn put_records(out: &mut [u8], at: usize, epochs: &[u16], counts: &[u32]) -> usize
    requires epochs_len { length epochs.now ≡ length counts.now }
    requires counts_in_bounds { at + counts_size counts.now ≤ length out.old }
    ensures { Put (records_bytes (records_were epochs.now counts.now)) at result out.old out.new }
{
    let mut i = at;
    for (epoch, count) in epochs.iter().zip(counts) {
        let behind = fields::put_be16(out, i, *epoch);
        i = fields::put_varint(out, behind, *count);
    }
    i
}

// Writes proper flags at the start of `out`.
pub fn serialize(
    flags: Head,
    epochs: &[u16],
    counts: &[u32],
    out: &mut [u8],
) -> Result<usize, Refusal>
    ensures { after (answered result) out.new ≡ serialized (flags_were flags epochs.now counts.now) out.old }
{
    if !records::is_proper(flags, epochs, counts) {
        return Err(Refusal::BadTable);
    }
    let n = flags.records;
    if !bytes_fit(head_bytes_size(flags), &counts[..n], out.len()) {
        return Err(Refusal::NoRoom);
    }
    let at = put_head(out, flags);
    Ok(put_records(out, at, &epochs[..n], &counts[..n]))
}
