// The sizes of flag bytes.
ghost use Rattle.std.specs.Prelude.{◌≡◌, ◌+◌, ◌*◌, ◌≤◌, leb, length};
ghost use Rattle.records_spec.specs.Flags.{owner_of};
ghost use Rattle.records_spec.specs.Answers.{flags_were};
ghost use Rattle.records_spec.specs.Outcomes.{answered};
ghost use Rattle.codec_spec.specs.Bytes.{owner_bytes, unowned_head, owned_head};
ghost use Rattle.codec_spec.specs.Sizes.{changes_size, approximate, longest_record, largest_changes};
ghost use Rattle.codec_spec.specs.Inner.Sizes.{counts_size};
ghost use Rattle.codec_spec.specs.Calls.{size_of};

use codec_spec::{Changes, LONGEST_RECORD, OWNED_HEAD, UNOWNED_HEAD};
use records_spec::{Head, Refusal};

// The bytes of a head without an owner, as the 32 bits that document 01 asks for.
const UNOWNED_32: u32 = UNOWNED_HEAD as u32;

// The same with an owner.
const OWNED_32: u32 = OWNED_HEAD as u32;

// The size of so many changes.
fn changes_size(changes: Option<Changes>) -> u32
    ensures { (result ≡ changes_size changes) × (result ≤ largest_changes) }
{
    match changes {
        Some(changes) => u32::from(changes.count) * (2 + u32::from(changes.size)),
        None => 0,
    }
}

// The size of flags before they are made.
pub fn approximate_size(has_owner_id: bool, changes: Option<Changes>) -> u32
    ensures { result ≡ approximate has_owner_id changes }
{
    let head = if has_owner_id { OWNED_32 } else { UNOWNED_32 };
    head + changes_size(changes)
}

// The number of bytes of records with these counts.
fn records_size(counts: &[u32]) -> usize
    ensures { (result ≡ counts_size counts.now) × (result ≤ longest_record * length counts.now) }
{
    let mut size = 0;
    for count in counts {
        size += 2 + fields::varint_len(*count);
    }
    size
}

// The same number, for the test of room. `records_size` looks each length up in the table that document 01 binds; this one sums
// lengths by limits, since such a loop can become vector code.
fn size_by_limits(counts: &[u32]) -> usize
    ensures { (result ≡ counts_size counts.now) × (result ≤ longest_record * length counts.now) }
{
    let mut size = 0;
    for count in counts {
        size += 2 + fields::len_by_limits(*count);
    }
    size
}

// The number of bytes before the records.
pub fn head_bytes_size(head: Head) -> usize
    ensures { (result ≡ unowned_head + length (owner_bytes (owner_of head))) × (result ≤ owned_head) }
{
    if records::is_owned(head.kind) {
        OWNED_HEAD
    } else {
        UNOWNED_HEAD
    }
}

// Whether `size` bytes and records with these counts fit in `room` bytes. The longest records are surely enough, and
// then no sum is made.
pub fn bytes_fit(size: usize, counts: &[u32], room: usize) -> bool
    ensures { result ≡ leb (size + counts_size counts.now) room }
{
    match room.checked_sub(size) {
        Some(left) => LONGEST_RECORD * counts.len() <= left || size_by_limits(counts) <= left,
        None => false,
    }
}

// The number of bytes of flags.
pub fn serialized_size(flags: Head, epochs: &[u16], counts: &[u32]) -> Result<usize, Refusal>
    ensures { answered result ≡ size_of (flags_were flags epochs.now counts.now) }
{
    if records::is_proper(flags, epochs, counts) {
        let n = flags.records;
        Ok(head_bytes_size(flags) + records_size(&counts[..n]))
    } else {
        Err(Refusal::BadTable)
    }
}
