// Replaying the repair: 23.
use wire::{Mismatch, QuestionBytes, ReplyBytes, Table, TableOf};

// The most bytes that are lent for a repair in a stored question.
const ROOM_TO_REPAIR: usize = 64;

// The repair: bytes, and the output and the list that are lent.
pub fn repair(mut question: QuestionBytes<'_>, reply: &mut ReplyBytes<'_>) -> Result<(), Mismatch> {
    let src = question.part()?;
    let mut out = TableOf::<u8, ROOM_TO_REPAIR>::read(&mut question)?;
    let mut offsets = Table::<usize>::read(&mut question)?;
    let mut changes = Table::<u8>::read(&mut question)?;
    question.end()?;
    let repaired = repair::repair(src, out.lent(), offsets.lent(), changes.lent());
    reply.tell_answer(repaired.map(|sizes| (sizes.bytes, sizes.lines)))?;
    out.tell(reply)?;
    offsets.tell(reply)?;
    changes.tell(reply)
}
