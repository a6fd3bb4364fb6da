// Writing flags and their sizes, for C.
ghost use Rattle.std.specs.Prelude.{◌≡◌};
ghost use Rattle.codec_spec.specs.Sizes.{approximate};
ghost use Rattle.records_spec.specs.Outcomes.{after};
ghost use Rattle.capi_spec.specs.Given.{is_true, changes_given, flags_were_c};
ghost use Rattle.capi_spec.specs.Told.{count_told, told_as};
ghost use Rattle.capi_spec.specs.Calls.{serialized_c, size_c};

use capi_spec::{CCount, CHead};
use records_spec::Refusal;

// Writes flags as bytes.
pub fn petasunok_serialize(flags: CHead, epochs: &[u16], counts: &[u32], out: &mut [u8]) -> CCount
    ensures { after result out.new ≡ told_as count_told (serialized_c (flags_were_c flags epochs.now counts.now) out.old) }
{
    if capi_given::is_kind(flags.kind) {
        capi_told::count_told(codec::serialize(capi_given::head_given(flags), epochs, counts, out))
    } else {
        capi_told::count_told(Err(Refusal::BadTable))
    }
}

// The number of bytes of flags.
pub fn petasunok_serialized_size(flags: CHead, epochs: &[u16], counts: &[u32]) -> CCount
    ensures { result ≡ count_told (size_c (flags_were_c flags epochs.now counts.now)) }
{
    if capi_given::is_kind(flags.kind) {
        capi_told::count_told(codec::serialized_size(capi_given::head_given(flags), epochs, counts))
    } else {
        capi_told::count_told(Err(Refusal::BadTable))
    }
}

// The size of flags before they are made.
pub fn petasunok_approximate_size(has_owner_id: u8, given: u8, changes: u16, size: u8) -> u32
    ensures { result ≡ approximate (is_true has_owner_id) (changes_given given changes size) }
{
    codec::approximate_size(
        capi_given::is_true(has_owner_id),
        capi_given::changes_given(given, changes, size),
    )
}
