// Replaying removal sums: 15 to 17.
use wire::{Field, Mismatch, QuestionBytes, ReplyBytes, Rows};

// The sum of two removals, the first of which is lent.
pub fn add_assign(
    mut question: QuestionBytes<'_>,
    reply: &mut ReplyBytes<'_>,
) -> Result<(), Mismatch> {
    let mut ours = Rows::read(&mut question)?;
    let rhs = Rows::read(&mut question)?;
    let version = u16::read(&mut question)?;
    question.end()?;
    let summed = sums::add_assign(
        ours.removal,
        ours.tables.ids.lent(),
        ours.tables.epochs.lent(),
        ours.tables.amounts.lent(),
        rhs.removal,
        rhs.tables.ids.places(),
        rhs.tables.epochs.places(),
        rhs.tables.amounts.places(),
        version,
    );
    reply.tell_answer(summed)?;
    ours.tables.tell(reply)
}

// Reads a removal, up to the question's end.
fn read_rows(mut question: QuestionBytes<'_>) -> Result<Rows, Mismatch> {
    let rows = Rows::read(&mut question)?;
    question.end()?;
    Ok(rows)
}

// Whether something was removed: 1 or 0, in four bytes.
pub fn has_removal(
    question: QuestionBytes<'_>,
    reply: &mut ReplyBytes<'_>,
) -> Result<(), Mismatch> {
    let rows = read_rows(question)?;
    let has = rows::has_removal(
        rows.removal,
        rows.tables.ids.places(),
        rows.tables.epochs.places(),
        rows.tables.amounts.places(),
    );
    reply.tell_answer(has.map(|has| u32::from(has)))
}

// How many bytes were removed.
pub fn total_removed_bytes(
    question: QuestionBytes<'_>,
    reply: &mut ReplyBytes<'_>,
) -> Result<(), Mismatch> {
    let rows = read_rows(question)?;
    let total = rows::total_removed_bytes(
        rows.removal,
        rows.tables.ids.places(),
        rows.tables.epochs.places(),
        rows.tables.amounts.places(),
    );
    reply.tell_answer(total)
}
