// Reading flags, for C.
ghost use Rattle.std.specs.Prelude.{◌≡◌};
ghost use Rattle.records_spec.specs.Answers.{tables_were, tables_left};
ghost use Rattle.records_spec.specs.Outcomes.{after};
ghost use Rattle.records_spec.specs.declared.head.Kind.TheVariants.{SingleEpoch, MultiEpoch, SingleEpochOwned, MultiEpochOwned};
ghost use Rattle.codec_spec.specs.Calls.{deserialized_as, deserialized};
ghost use Rattle.capi_spec.specs.Told.{flags_told};

use capi_spec::CFlags;

// Reads flags of the kind that byte 0 names.
#[unsafe(no_mangle)]
pub extern "C" fn petasunok_deserialize(
    src: &[u8],
    epochs: &mut [u16],
    counts: &mut [u32],
) -> CFlags
    ensures { after result (tables_left epochs.new counts.new) ≡ flags_told (deserialized src.now (tables_were epochs.old counts.old)) }
{
    capi::petasunok_deserialize(src, epochs, counts)
}

// Reads flags of kind 0, whatever byte 0 says.
#[unsafe(no_mangle)]
pub extern "C" fn petasunok_deserialize_single_epoch(
    src: &[u8],
    epochs: &mut [u16],
    counts: &mut [u32],
) -> CFlags
    ensures { after result (tables_left epochs.new counts.new) ≡ flags_told (deserialized_as SingleEpoch src.now (tables_were epochs.old counts.old)) }
{
    capi::petasunok_deserialize_single_epoch(src, epochs, counts)
}

// Reads flags of kind 1, whatever byte 0 says.
#[unsafe(no_mangle)]
pub extern "C" fn petasunok_deserialize_multi_epoch(
    src: &[u8],
    epochs: &mut [u16],
    counts: &mut [u32],
) -> CFlags
    ensures { after result (tables_left epochs.new counts.new) ≡ flags_told (deserialized_as MultiEpoch src.now (tables_were epochs.old counts.old)) }
{
    capi::petasunok_deserialize_multi_epoch(src, epochs, counts)
}

// Reads flags of kind 2, whatever byte 0 says.
#[unsafe(no_mangle)]
pub extern "C" fn petasunok_deserialize_single_epoch_owned(
    src: &[u8],
    epochs: &mut [u16],
    counts: &mut [u32],
) -> CFlags
    ensures { after result (tables_left epochs.new counts.new) ≡ flags_told (deserialized_as SingleEpochOwned src.now (tables_were epochs.old counts.old)) }
{
    capi::petasunok_deserialize_single_epoch_owned(src, epochs, counts)
}

// Reads flags of kind 3, whatever byte 0 says.
#[unsafe(no_mangle)]
pub extern "C" fn petasunok_deserialize_multi_epoch_owned(
    src: &[u8],
    epochs: &mut [u16],
    counts: &mut [u32],
) -> CFlags
    ensures { after result (tables_left epochs.new counts.new) ≡ flags_told (deserialized_as MultiEpochOwned src.now (tables_were epochs.old counts.old)) }
{
    capi::petasunok_deserialize_multi_epoch_owned(src, epochs, counts)
}
