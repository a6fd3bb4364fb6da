// Replaying the writer and the sizes: 6 to 8.
use codec_spec::Changes;
use records_spec::Refusal;
use wire::{Field, FlagsAsked, Mismatch, QuestionBytes, ReplyBytes, TableOf};

// The most bytes that are lent for writing in a stored question.
const ROOM_TO_WRITE: usize = 1024;

// Holds a number of bytes, which stands in four, or a refusal against a reply.
fn tell_count(reply: &mut ReplyBytes<'_>, counted: Result<usize, Refusal>) -> Result<(), Mismatch> {
    let count = match counted {
        Ok(n) => Ok(u32::try_from(n).map_err(|_| Mismatch::Differs)?),
        Err(refusal) => Err(refusal),
    };
    reply.tell_answer(count)
}

// The writer: flags, and the bytes that are lent.
pub fn serialize(
    mut question: QuestionBytes<'_>,
    reply: &mut ReplyBytes<'_>,
) -> Result<(), Mismatch> {
    let flags = FlagsAsked::read(&mut question)?;
    let mut out = TableOf::<u8, ROOM_TO_WRITE>::read(&mut question)?;
    question.end()?;
    let counted = codec::serialize(
        flags.head,
        flags.epochs.places(),
        flags.counts.places(),
        out.lent(),
    );
    tell_count(reply, counted)?;
    out.tell(reply)
}

// The size of flags.
pub fn serialized_size(
    mut question: QuestionBytes<'_>,
    reply: &mut ReplyBytes<'_>,
) -> Result<(), Mismatch> {
    let flags = FlagsAsked::read(&mut question)?;
    question.end()?;
    let counted = codec::serialized_size(flags.head, flags.epochs.places(), flags.counts.places());
    tell_count(reply, counted)
}

// The size of flags before they are made.
pub fn approximate_size(
    mut question: QuestionBytes<'_>,
    reply: &mut ReplyBytes<'_>,
) -> Result<(), Mismatch> {
    let has_owner = bool::read(&mut question)?;
    let changes = Option::<(u16, u8)>::read(&mut question)?;
    question.end()?;
    codec::approximate_size(
        has_owner,
        changes.map(|(count, size)| Changes { count, size }),
    )
    .tell(reply)
}
