// The calls on a head alone, for C.
ghost use Rattle.std.specs.Prelude.{◌≡◌};
ghost use Rattle.records_spec.specs.Flags.{owner_if, head_for};
ghost use Rattle.records_spec.specs.Outcomes.{refused};
ghost use Rattle.capi_spec.specs.Given.{is_true};
ghost use Rattle.capi_spec.specs.Told.{head_told, head_answer, count_told, owner_id_told};
ghost use Rattle.capi_spec.specs.Calls.{with_owner_c, base_c, owner_id_c, type_byte_c};

use capi_spec::{CCount, CFlags, CHead, CId, CMaybeOwner};
use records_spec::Refusal;

// Flags whose bytes were all paid in one epoch.
pub fn petasunok_new_single_epoch(epoch: u16, owned: u8, owner_id: CId) -> CHead
    ensures { result ≡ head_told (head_for epoch (owner_if (is_true owned) owner_id.bytes) 0) }
{
    let owner = if capi_given::is_true(owned) {
        Some(owner_id.bytes)
    } else {
        None
    };
    capi_told::head_told(records::new_single_epoch(epoch, owner))
}

// The head with another owner, where it is owned.
pub fn petasunok_set_owner_id(head: CHead, owner_id: CId) -> CFlags
    ensures { result ≡ head_answer (with_owner_c head owner_id) }
{
    if capi_given::is_kind(head.kind) {
        let found = capi_given::head_given(head);
        let head = records::set_owner_id(found, owner_id.bytes);
        capi_told::flags_told(Ok(Some(head)))
    } else {
        capi_told::bad_flags()
    }
}

// The epoch of the bytes that no record counts.
pub fn petasunok_base_epoch(head: CHead) -> CCount
    ensures { result ≡ count_told (base_c head) }
{
    if capi_given::is_kind(head.kind) {
        let found = capi_given::head_given(head);
        capi_told::count_told(Ok(records::base_epoch(found) as usize))
    } else {
        capi_told::count_told(Err(Refusal::BadTable))
    }
}

// The owner or none.
pub fn petasunok_owner_id(head: CHead) -> CMaybeOwner
    ensures { result ≡ owner_id_told (owner_id_c head) }
{
    if capi_given::is_kind(head.kind) {
        let found = capi_given::head_given(head);
        capi_told::owner_id_told(records::owner_id(found))
    } else {
        capi_told::no_owner_id(Refusal::BadTable)
    }
}

// Byte 0 of the flags.
pub fn petasunok_type_byte(head: CHead) -> CCount
    ensures { result ≡ count_told (type_byte_c head) }
{
    if capi_given::is_kind(head.kind) {
        let found = capi_given::head_given(head);
        capi_told::count_told(Ok(records::type_byte(found) as usize))
    } else {
        capi_told::count_told(Err(Refusal::BadTable))
    }
}
