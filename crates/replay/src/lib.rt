// Replaying stored answers: makes the call that a question asks for, and holds what it answers against the stored reply.
#![tactic(auto)]

mod heads;
mod owners;
mod reads;
mod repairs;
mod writes;

use wire::{Call, Comparison, Field, Mismatch, QuestionBytes, ReplyBytes};

// Makes a call, and holds what it answers against the reply.
fn make(
    call: Call,
    question: QuestionBytes<'_>,
    reply: &mut ReplyBytes<'_>,
) -> Result<(), Mismatch> {
    match call {
        Call::Deserialize => reads::deserialize(question, reply),
        Call::DeserializeSingleEpoch => reads::deserialize_single_epoch(question, reply),
        Call::DeserializeMultiEpoch => reads::deserialize_multi_epoch(question, reply),
        Call::DeserializeSingleEpochOwned => reads::deserialize_single_epoch_owned(question, reply),
        Call::DeserializeMultiEpochOwned => reads::deserialize_multi_epoch_owned(question, reply),
        Call::Serialize => writes::serialize(question, reply),
        Call::SerializedSize => writes::serialized_size(question, reply),
        Call::ApproximateSize => writes::approximate_size(question, reply),
        Call::CombineOwnerId => owners::combine_owner_id(question, reply),
        Call::CombineAddedBytes => replay_merges::combine_added_bytes(question, reply),
        Call::OptionalCombineAddedBytes => {
            replay_merges::optional_combine_added_bytes(question, reply)
        }
        Call::CombineRemovedBytes => replay_merges::combine_removed_bytes(question, reply),
        Call::OptionalCombineRemovedBytes => {
            replay_merges::optional_combine_removed_bytes(question, reply)
        }
        Call::AddAssign => replay_removals::add_assign(question, reply),
        Call::HasRemoval => replay_removals::has_removal(question, reply),
        Call::TotalRemovedBytes => replay_removals::total_removed_bytes(question, reply),
        Call::NewSingleEpoch => heads::new_single_epoch(question, reply),
        Call::SetOwnerId => heads::set_owner_id(question, reply),
        Call::BaseEpoch => heads::base_epoch(question, reply),
        Call::OwnerId => heads::owner_id(question, reply),
        Call::TypeByte => heads::type_byte(question, reply),
        Call::Repair => repairs::repair(question, reply),
        Call::TotalsReplace => replay_totals::totals_replace(question, reply),
        Call::SplitKeyRemovedBytes => replay_removals::split_key_removed_bytes(question, reply),
        Call::SplitValueRemovedBytes => replay_removals::split_value_removed_bytes(question, reply),
    }
}

// Replays the call whose number is a question's first field; the reply has to end where the answer does.
pub fn replay(question: &[u8], reply: &[u8]) -> Comparison {
    let mut question = QuestionBytes::new(question);
    let Ok(call) = Call::read(&mut question) else {
        return Comparison::NoQuestion;
    };
    let mut reply = ReplyBytes::new(reply);
    match make(call, question, &mut reply).and_then(|()| reply.end()) {
        Ok(()) => Comparison::Agrees(call),
        Err(Mismatch::Differs) => Comparison::Differs(call),
        Err(Mismatch::NoQuestion) => Comparison::NoQuestion,
    }
}
