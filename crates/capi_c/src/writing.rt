// Writing flags and their sizes, for C.
ghost use Rattle.std.specs.Prelude.{◌≡◌};
ghost use Rattle.codec_spec.specs.Sizes.{approximate};
ghost use Rattle.records_spec.specs.Outcomes.{after};
ghost use Rattle.capi_spec.specs.Given.{is_true, changes_given, flags_were_c};
ghost use Rattle.capi_spec.specs.Told.{count_told, told_as};
ghost use Rattle.capi_spec.specs.Calls.{serialized_c, size_c};

use capi_spec::{CCount, CHead};

// Writes flags as bytes.
#[unsafe(no_mangle)]
pub extern "C" fn petasunok_serialize(
    flags: CHead,
    epochs: &[u16],
    counts: &[u32],
    out: &mut [u8],
) -> CCount
    ensures { after result out.new ≡ told_as count_told (serialized_c (flags_were_c flags epochs.now counts.now) out.old) }
{
    capi::petasunok_serialize(flags, epochs, counts, out)
}

// The number of bytes of flags.
#[unsafe(no_mangle)]
pub extern "C" fn petasunok_serialized_size(flags: CHead, epochs: &[u16], counts: &[u32]) -> CCount
    ensures { result ≡ count_told (size_c (flags_were_c flags epochs.now counts.now)) }
{
    capi::petasunok_serialized_size(flags, epochs, counts)
}

// The size of flags before they are made.
#[unsafe(no_mangle)]
pub extern "C" fn petasunok_approximate_size(
    has_owner_id: u8,
    given: u8,
    changes: u16,
    size: u8,
) -> u32
    ensures { result ≡ approximate (is_true has_owner_id) (changes_given given changes size) }
{
    capi::petasunok_approximate_size(has_owner_id, given, changes, size)
}
