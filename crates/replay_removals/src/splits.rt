// Replaying the splits of a removal: 25 of key bytes, 26 of value bytes.
use wire::{Field, FlagsAsked, Mismatch, QuestionBytes, ReplyBytes, RowTables};

// What a split is asked with: flags, how many bytes were removed, and the tables that are lent for the rows.
#[derive(Drop)]
struct Split {
    flags: FlagsAsked,
    removed: u32,
    lent: RowTables<u32>,
}

impl Split {
    // Reads it, up to the question's end.
    fn read(mut question: QuestionBytes<'_>) -> Result<Self, Mismatch> {
        let split = Split {
            flags: FlagsAsked::read(&mut question)?,
            removed: u32::read(&mut question)?,
            lent: RowTables::read(&mut question)?,
        };
        question.end()?;
        Ok(split)
    }
}

// The split of key bytes.
pub fn split_key_removed_bytes(
    question: QuestionBytes<'_>,
    reply: &mut ReplyBytes<'_>,
) -> Result<(), Mismatch> {
    let Split {
        flags,
        removed,
        mut lent,
    } = Split::read(question)?;
    let split = splitting::split_key_removed_bytes(
        flags.head,
        flags.epochs.places(),
        flags.counts.places(),
        removed,
        lent.ids.lent(),
        lent.epochs.lent(),
        lent.amounts.lent(),
    );
    reply.tell_answer(split)?;
    lent.tell(reply)
}

// The split of value bytes, and how many records were visited.
pub fn split_value_removed_bytes(
    question: QuestionBytes<'_>,
    reply: &mut ReplyBytes<'_>,
) -> Result<(), Mismatch> {
    let Split {
        flags,
        removed,
        mut lent,
    } = Split::read(question)?;
    let split = splitting::split_value_removed_bytes(
        flags.head,
        flags.epochs.places(),
        flags.counts.places(),
        removed,
        lent.ids.lent(),
        lent.epochs.lent(),
        lent.amounts.lent(),
    );
    reply.tell_answer(split.map(|split| (split.removal, split.visited)))?;
    lent.tell(reply)
}
