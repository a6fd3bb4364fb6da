// The head of flags in their bytes: its size, base, owner and number of records.
ghost use Rattle.std.specs.Prelude.{◌≡◌, ◌≤◌, length, take, drop, true};
ghost use Rattle.codec_spec.specs.Reading.{base_in, owner_in};
ghost use Rattle.records_spec.specs.Flags.{agrees, id_of, head_for, owner_length};
ghost use Rattle.codec_spec.specs.Bytes.{head_size, behind_kind, behind_owner};

use codec_spec::{BEHIND_KIND, BEHIND_OWNER, OWNED_HEAD, UNOWNED_HEAD};
use records_spec::{Head, Kind, OWNER_LENGTH, OwnerId};

// The number of bytes before the records of a kind.
pub fn head_size(kind: Kind) -> usize
    ensures { result ≡ head_size kind }
{
    if records::is_owned(kind) {
        OWNED_HEAD
    } else {
        UNOWNED_HEAD
    }
}

// The base epoch of flags of a kind.
pub fn base_in(kind: Kind, src: &[u8]) -> u16
    requires { head_size kind ≤ length src.now }
    ensures { result ≡ base_in kind src.now }
{
    fields::be16_at(
        src,
        if records::is_owned(kind) {
            BEHIND_OWNER
        } else {
            BEHIND_KIND
        },
    )
}

// The owner's bytes, behind the kind.
fn owner_bytes(src: &[u8]) -> OwnerId
    requires { behind_owner ≤ length src.now }
    ensures { result ≡ take owner_length (drop behind_kind src.now) }
{
    let mut owner = [0; OWNER_LENGTH];
    owner.copy_from_slice(&src[BEHIND_KIND..BEHIND_OWNER]);
    owner
}

// The owner of flags of a kind, or zeros.
fn owner_in(kind: Kind, src: &[u8]) -> OwnerId
    requires { head_size kind ≤ length src.now }
    ensures { result ≡ id_of (owner_in kind src.now) }
{
    if records::is_owned(kind) {
        owner_bytes(src)
    } else {
        [0; OWNER_LENGTH]
    }
}

// The head of flags of a kind with a number of records that goes with it.
pub fn head_in(kind: Kind, src: &[u8], records: usize) -> Head
    requires kind_in_bounds { head_size kind ≤ length src.now }
    requires records_value { agrees kind records ≡ true }
    ensures { result ≡ head_for (base_in kind src.now) (owner_in kind src.now) records }
{
    let base = base_in(kind, src);
    let owner = owner_in(kind, src);
    Head {
        kind,
        base,
        owner,
        records,
    }
}
