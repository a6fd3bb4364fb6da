// The calls on a head alone, for C.
ghost use Rattle.std.specs.Prelude.{◌≡◌};
ghost use Rattle.records_spec.specs.Flags.{owner_if, head_for};
ghost use Rattle.capi_spec.specs.Given.{is_true};
ghost use Rattle.capi_spec.specs.Told.{head_told, head_answer, count_told, owner_id_told};
ghost use Rattle.capi_spec.specs.Calls.{with_owner_c, base_c, owner_id_c, type_byte_c};

use capi_spec::{CCount, CFlags, CHead, CId, CMaybeOwner};

// Flags whose bytes were all paid in one epoch.
#[unsafe(no_mangle)]
pub extern "C" fn petasunok_new_single_epoch(epoch: u16, owned: u8, owner_id: CId) -> CHead
    ensures { result ≡ head_told (head_for epoch (owner_if (is_true owned) owner_id.bytes) 0) }
{
    capi::petasunok_new_single_epoch(epoch, owned, owner_id)
}

// The head with another owner, where it is owned.
#[unsafe(no_mangle)]
pub extern "C" fn petasunok_set_owner_id(head: CHead, owner_id: CId) -> CFlags
    ensures { result ≡ head_answer (with_owner_c head owner_id) }
{
    capi::petasunok_set_owner_id(head, owner_id)
}

// The epoch of the bytes that no record counts.
#[unsafe(no_mangle)]
pub extern "C" fn petasunok_base_epoch(head: CHead) -> CCount
    ensures { result ≡ count_told (base_c head) }
{
    capi::petasunok_base_epoch(head)
}

// The owner or none.
#[unsafe(no_mangle)]
pub extern "C" fn petasunok_owner_id(head: CHead) -> CMaybeOwner
    ensures { result ≡ owner_id_told (owner_id_c head) }
{
    capi::petasunok_owner_id(head)
}

// Byte 0 of the flags.
#[unsafe(no_mangle)]
pub extern "C" fn petasunok_type_byte(head: CHead) -> CCount
    ensures { result ≡ count_told (type_byte_c head) }
{
    capi::petasunok_type_byte(head)
}
