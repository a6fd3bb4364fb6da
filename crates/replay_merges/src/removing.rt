// Replaying the removing merges: 12 and 13.
use flags_spec::MergingOwnersStrategy;
use wire::{Field, FlagsAsked, Mismatch, QuestionBytes, ReplyBytes, Rows, TablesAsked};

// What a removing merge is asked with: ours, theirs, the removal, the strategy, and the tables that are lent.
#[derive(Drop)]
struct Removing {
    ours: FlagsAsked,
    theirs: FlagsAsked,
    rows: Rows,
    strategy: MergingOwnersStrategy,
    lent: TablesAsked,
}

impl Removing {
    // Reads it, up to the question's end.
    fn read(mut question: QuestionBytes<'_>) -> Result<Self, Mismatch> {
        let removing = Removing {
            ours: FlagsAsked::read(&mut question)?,
            theirs: FlagsAsked::read(&mut question)?,
            rows: Rows::read(&mut question)?,
            strategy: question.strategy()?,
            lent: TablesAsked::read(&mut question)?,
        };
        question.end()?;
        Ok(removing)
    }
}

// The removing merge.
pub fn combine_removed_bytes(
    question: QuestionBytes<'_>,
    reply: &mut ReplyBytes<'_>,
) -> Result<(), Mismatch> {
    let Removing {
        ours,
        theirs,
        rows,
        strategy,
        mut lent,
    } = Removing::read(question)?;
    let answered = removal::combine_removed_bytes(
        ours.head,
        ours.epochs.places(),
        ours.counts.places(),
        theirs.head,
        theirs.epochs.places(),
        theirs.counts.places(),
        rows.removal,
        rows.tables.ids.places(),
        rows.tables.epochs.places(),
        rows.tables.amounts.places(),
        strategy,
        lent.epochs.lent(),
        lent.counts.lent(),
    );
    reply.tell_flags(answered, &lent)
}

// The removing merge where ours may be absent: whether it is present, and the rest as above.
pub fn optional_combine_removed_bytes(
    mut question: QuestionBytes<'_>,
    reply: &mut ReplyBytes<'_>,
) -> Result<(), Mismatch> {
    let present = bool::read(&mut question)?;
    let Removing {
        ours,
        theirs,
        rows,
        strategy,
        mut lent,
    } = Removing::read(question)?;
    let answered = removal::optional_combine_removed_bytes(
        present,
        ours.head,
        ours.epochs.places(),
        ours.counts.places(),
        theirs.head,
        theirs.epochs.places(),
        theirs.counts.places(),
        rows.removal,
        rows.tables.ids.places(),
        rows.tables.epochs.places(),
        rows.tables.amounts.places(),
        strategy,
        lent.epochs.lent(),
        lent.counts.lent(),
    );
    reply.tell_flags(answered, &lent)
}
