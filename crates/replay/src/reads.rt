// Replaying the readers: 1 to 5.
use wire::{Mismatch, QuestionBytes, ReplyBytes, TablesAsked};

// What a reader is asked with: bytes, and the tables that are lent.
#[derive(Drop)]
struct Reading<'a> {
    src: &'a [u8],
    lent: TablesAsked,
}

impl<'a> Reading<'a> {
    // Reads it, up to the question's end.
    fn read(mut question: QuestionBytes<'a>) -> Result<Self, Mismatch> {
        let reading = Reading {
            src: question.part()?,
            lent: TablesAsked::read(&mut question)?,
        };
        question.end()?;
        Ok(reading)
    }
}

// The reader that goes by byte 0.
pub fn deserialize(
    question: QuestionBytes<'_>,
    reply: &mut ReplyBytes<'_>,
) -> Result<(), Mismatch> {
    let Reading { src, mut lent } = Reading::read(question)?;
    let answered = codec::deserialize(src, lent.epochs.lent(), lent.counts.lent());
    reply.tell_flags(answered, &lent)
}

// The reader of kind 0.
pub fn deserialize_single_epoch(
    question: QuestionBytes<'_>,
    reply: &mut ReplyBytes<'_>,
) -> Result<(), Mismatch> {
    let Reading { src, mut lent } = Reading::read(question)?;
    let answered = codec::deserialize_single_epoch(src, lent.epochs.lent(), lent.counts.lent());
    reply.tell_flags(answered, &lent)
}

// The reader of kind 1.
pub fn deserialize_multi_epoch(
    question: QuestionBytes<'_>,
    reply: &mut ReplyBytes<'_>,
) -> Result<(), Mismatch> {
    let Reading { src, mut lent } = Reading::read(question)?;
    let answered = codec::deserialize_multi_epoch(src, lent.epochs.lent(), lent.counts.lent());
    reply.tell_flags(answered, &lent)
}

// The reader of kind 2.
pub fn deserialize_single_epoch_owned(
    question: QuestionBytes<'_>,
    reply: &mut ReplyBytes<'_>,
) -> Result<(), Mismatch> {
    let Reading { src, mut lent } = Reading::read(question)?;
    let answered = codec::deserialize_single_epoch_owned(
        src,
        lent.epochs.lent(),
        lent.counts.lent(),
    );
    reply.tell_flags(answered, &lent)
}

// The reader of kind 3.
pub fn deserialize_multi_epoch_owned(
    question: QuestionBytes<'_>,
    reply: &mut ReplyBytes<'_>,
) -> Result<(), Mismatch> {
    let Reading { src, mut lent } = Reading::read(question)?;
    let answered = codec::deserialize_multi_epoch_owned(
        src,
        lent.epochs.lent(),
        lent.counts.lent(),
    );
    reply.tell_flags(answered, &lent)
}
