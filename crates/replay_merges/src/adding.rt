// Replaying the adding merges: 10 and 11.
use flags_spec::MergingOwnersStrategy;
use wire::{Field, FlagsAsked, Mismatch, QuestionBytes, ReplyBytes, TablesAsked};

// What an adding merge is asked with: ours, theirs, the amount, the strategy, and the tables that are lent.
#[derive(Drop)]
struct Adding {
    ours: FlagsAsked,
    theirs: FlagsAsked,
    amount: u32,
    strategy: MergingOwnersStrategy,
    lent: TablesAsked,
}

impl Adding {
    // Reads it, up to the question's end.
    fn read(mut question: QuestionBytes<'_>) -> Result<Self, Mismatch> {
        let adding = Adding {
            ours: FlagsAsked::read(&mut question)?,
            theirs: FlagsAsked::read(&mut question)?,
            amount: u32::read(&mut question)?,
            strategy: question.strategy()?,
            lent: TablesAsked::read(&mut question)?,
        };
        question.end()?;
        Ok(adding)
    }
}

// The adding merge.
pub fn combine_added_bytes(
    question: QuestionBytes<'_>,
    reply: &mut ReplyBytes<'_>,
) -> Result<(), Mismatch> {
    let Adding {
        ours,
        theirs,
        amount,
        strategy,
        mut lent,
    } = Adding::read(question)?;
    let answered = flags::combine_added_bytes(
        ours.head,
        ours.epochs.places(),
        ours.counts.places(),
        theirs.head,
        theirs.epochs.places(),
        theirs.counts.places(),
        amount,
        strategy,
        lent.epochs.lent(),
        lent.counts.lent(),
    );
    reply.tell_flags(answered, &lent)
}

// The adding merge where ours may be absent: whether it is present, and the rest as above.
pub fn optional_combine_added_bytes(
    mut question: QuestionBytes<'_>,
    reply: &mut ReplyBytes<'_>,
) -> Result<(), Mismatch> {
    let present = bool::read(&mut question)?;
    let Adding {
        ours,
        theirs,
        amount,
        strategy,
        mut lent,
    } = Adding::read(question)?;
    let answered = flags::optional_combine_added_bytes(
        present,
        ours.head,
        ours.epochs.places(),
        ours.counts.places(),
        theirs.head,
        theirs.epochs.places(),
        theirs.counts.places(),
        amount,
        strategy,
        lent.epochs.lent(),
        lent.counts.lent(),
    );
    reply.tell_flags(answered, &lent)
}
