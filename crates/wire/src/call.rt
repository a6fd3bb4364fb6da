// The calls that questions ask for.
use crate::field::Field;
use crate::question::{Mismatch, QuestionBytes};
use std::fmt;

// The calls, by their numbers. 14 was the split of key and value bytes at once, and is not used again.
#[derive(Clone, Copy)]
pub enum Call {
    Deserialize = 1,
    DeserializeSingleEpoch = 2,
    DeserializeMultiEpoch = 3,
    DeserializeSingleEpochOwned = 4,
    DeserializeMultiEpochOwned = 5,
    Serialize = 6,
    SerializedSize = 7,
    ApproximateSize = 8,
    CombineOwnerId = 9,
    CombineAddedBytes = 10,
    OptionalCombineAddedBytes = 11,
    CombineRemovedBytes = 12,
    OptionalCombineRemovedBytes = 13,
    AddAssign = 15,
    HasRemoval = 16,
    TotalRemovedBytes = 17,
    NewSingleEpoch = 18,
    SetOwnerId = 19,
    BaseEpoch = 20,
    OwnerId = 21,
    TypeByte = 22,
    Repair = 23,
    TotalsReplace = 24,
    SplitKeyRemovedBytes = 25,
    SplitValueRemovedBytes = 26,
}

// All calls, in the order of their numbers.
pub const CALLS: [Call; 25] = [
    Call::Deserialize,
    Call::DeserializeSingleEpoch,
    Call::DeserializeMultiEpoch,
    Call::DeserializeSingleEpochOwned,
    Call::DeserializeMultiEpochOwned,
    Call::Serialize,
    Call::SerializedSize,
    Call::ApproximateSize,
    Call::CombineOwnerId,
    Call::CombineAddedBytes,
    Call::OptionalCombineAddedBytes,
    Call::CombineRemovedBytes,
    Call::OptionalCombineRemovedBytes,
    Call::AddAssign,
    Call::HasRemoval,
    Call::TotalRemovedBytes,
    Call::NewSingleEpoch,
    Call::SetOwnerId,
    Call::BaseEpoch,
    Call::OwnerId,
    Call::TypeByte,
    Call::Repair,
    Call::TotalsReplace,
    Call::SplitKeyRemovedBytes,
    Call::SplitValueRemovedBytes,
];

impl Call {
    // Reads a call's number.
    pub fn read(question: &mut QuestionBytes<'_>) -> Result<Self, Mismatch> {
        let number = u8::read(question)?;
        CALLS
            .iter()
            .copied()
            .find(|call| *call as u8 == number)
            .ok_or(Mismatch::NoQuestion)
    }
}

// The name that the call has in the list of stored answers.
impl fmt::Display for Call {
    fn fmt<W: fmt::Write>(&self, f: &mut fmt::Formatter<W>) -> fmt::Result {
        f.write_str(match self {
            Call::Deserialize => "deserialize",
            Call::DeserializeSingleEpoch => "deserialize_single_epoch",
            Call::DeserializeMultiEpoch => "deserialize_multi_epoch",
            Call::DeserializeSingleEpochOwned => "deserialize_single_epoch_owned",
            Call::DeserializeMultiEpochOwned => "deserialize_multi_epoch_owned",
            Call::Serialize => "serialize",
            Call::SerializedSize => "serialized_size",
            Call::ApproximateSize => "approximate_size",
            Call::CombineOwnerId => "combine_owner_id",
            Call::CombineAddedBytes => "combine_added_bytes",
            Call::OptionalCombineAddedBytes => "optional_combine_added_bytes",
            Call::CombineRemovedBytes => "combine_removed_bytes",
            Call::OptionalCombineRemovedBytes => "optional_combine_removed_bytes",
            Call::AddAssign => "add_assign",
            Call::HasRemoval => "has_removal",
            Call::TotalRemovedBytes => "total_removed_bytes",
            Call::NewSingleEpoch => "new_single_epoch",
            Call::SetOwnerId => "set_owner_id",
            Call::BaseEpoch => "base_epoch",
            Call::OwnerId => "owner_id",
            Call::TypeByte => "type_byte",
            Call::Repair => "repair",
            Call::TotalsReplace => "totals_replace",
            Call::SplitKeyRemovedBytes => "split_key_removed_bytes",
            Call::SplitValueRemovedBytes => "split_value_removed_bytes",
        })
    }
}
