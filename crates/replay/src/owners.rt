// Replaying the owner rule: 9.
use flags_spec::Choice;
use wire::{Mismatch, QuestionBytes, ReplyBytes};

// Whose owner is chosen: 0 none, 1 ours, 2 theirs.
fn chosen(choice: Choice) -> u8 {
    match choice {
        Choice::Neither => 0,
        Choice::Ours => 1,
        Choice::Theirs => 2,
    }
}

// The owner rule on two encodings, and the part that is handed back.
pub fn combine_owner_id(
    mut question: QuestionBytes<'_>,
    reply: &mut ReplyBytes<'_>,
) -> Result<(), Mismatch> {
    let ours = question.part()?;
    let theirs = question.part()?;
    let strategy = question.strategy()?;
    question.end()?;
    let choice = flags::choose_owner_id(ours, theirs, strategy);
    reply.tell_answer(choice.map(|choice| chosen(choice)))?;
    reply.tell_part(flags::combine_owner_id(ours, theirs, strategy))
}
