// The calls on the head of flags alone.
ghost use Rattle.std.specs.Prelude.{◌≡◌};
ghost use Rattle.records_spec.specs.Flags.{owned, multi, type_byte, same, owner_of, id_of, head_for, no_head, with_owner};

use records_spec::{Head, Kind, OWNER_LENGTH, OwnerId};

// Whether flags of this kind have an owner.
pub fn is_owned(kind: Kind) -> bool
    ensures { result ≡ owned kind }
{
    matches!(kind, Kind::SingleEpochOwned | Kind::MultiEpochOwned)
}

// Whether flags of this kind have records.
pub fn is_multi(kind: Kind) -> bool
    ensures { result ≡ multi kind }
{
    matches!(kind, Kind::MultiEpoch | Kind::MultiEpochOwned)
}

// Whether two owners are the same.
pub fn same_owner(ours: OwnerId, theirs: OwnerId) -> bool
    ensures { result ≡ same ours theirs }
{
    ours == theirs
}

// The head of flags with a number of records: the kind follows from having an owner and from having records.
pub fn new_head(base: u16, maybe_owner_id: Option<OwnerId>, records: usize) -> Head
    ensures { result ≡ head_for base maybe_owner_id records }
{
    let kind = match (maybe_owner_id, records) {
        (None, 0) => Kind::SingleEpoch,
        (None, _) => Kind::MultiEpoch,
        (Some(_), 0) => Kind::SingleEpochOwned,
        (Some(_), _) => Kind::MultiEpochOwned,
    };
    Head {
        kind,
        base,
        owner: maybe_owner_id.unwrap_or([0; OWNER_LENGTH]),
        records,
    }
}

// The head where there are no flags.
pub fn no_head() -> Head
    ensures { result ≡ no_head }
{
    new_head(0, None, 0)
}

// Flags whose bytes were all paid in one epoch.
pub fn new_single_epoch(epoch: u16, maybe_owner_id: Option<OwnerId>) -> Head
    ensures { result ≡ head_for epoch maybe_owner_id 0 }
{
    new_head(epoch, maybe_owner_id, 0)
}

// The head with another owner, where it is owned.
pub fn set_owner_id(mut head: Head, owner_id: OwnerId) -> Head
    ensures { result ≡ with_owner head owner_id }
{
    if is_owned(head.kind) {
        head.owner = owner_id;
    }
    head
}

// The epoch of the bytes that no record counts.
pub fn base_epoch(head: Head) -> u16
    ensures { result ≡ head.base }
{
    head.base
}

// The owner or none.
pub fn owner_id(head: Head) -> Option<OwnerId>
    ensures { result ≡ owner_of head }
{
    if is_owned(head.kind) {
        Some(head.owner)
    } else {
        None
    }
}

// The owner's bytes, or as many zeros where there is none.
pub fn id_of(head: Head) -> OwnerId
    ensures { result ≡ id_of (owner_of head) }
{
    owner_id(head).unwrap_or([0; OWNER_LENGTH])
}

// Byte 0 of the flags.
pub fn type_byte(head: Head) -> u8
    ensures { result ≡ type_byte head.kind }
{
    u8::from(head.kind)
}
