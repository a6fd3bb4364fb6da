// Replaying the change of a table of totals: 24.
#![tactic(auto)]

use wire::{Field, FlagsAsked, Mismatch, QuestionBytes, ReplyBytes, RowTables};

// One element's old flags replaced by new ones: the table that is lent, and both flags, each of which may be absent.
pub fn totals_replace(
    mut question: QuestionBytes<'_>,
    reply: &mut ReplyBytes<'_>,
) -> Result<(), Mismatch> {
    let rows = usize::read(&mut question)?;
    let mut lent = RowTables::<u64>::read(&mut question)?;
    let old_present = bool::read(&mut question)?;
    let old = FlagsAsked::read(&mut question)?;
    let new_present = bool::read(&mut question)?;
    let new = FlagsAsked::read(&mut question)?;
    question.end()?;
    let replaced = totals::replace(
        rows,
        lent.ids.lent(),
        lent.epochs.lent(),
        lent.amounts.lent(),
        old_present,
        old.head,
        old.epochs.places(),
        old.counts.places(),
        new_present,
        new.head,
        new.epochs.places(),
        new.counts.places(),
    );
    reply.tell_answer(replaced)?;
    lent.tell(reply)
}
