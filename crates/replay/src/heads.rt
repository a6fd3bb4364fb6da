// Replaying the calls on a head alone: 18 to 22.
use records_spec::{Head, OwnerId};
use wire::{Field, Mismatch, QuestionBytes, ReplyBytes};

// The head of flags whose bytes were all paid in one epoch.
pub fn new_single_epoch(
    mut question: QuestionBytes<'_>,
    reply: &mut ReplyBytes<'_>,
) -> Result<(), Mismatch> {
    let epoch = u16::read(&mut question)?;
    let owner = Option::<OwnerId>::read(&mut question)?;
    question.end()?;
    records::new_single_epoch(epoch, owner).tell(reply)
}

// The head with another owner.
pub fn set_owner_id(
    mut question: QuestionBytes<'_>,
    reply: &mut ReplyBytes<'_>,
) -> Result<(), Mismatch> {
    let head = Head::read(&mut question)?;
    let owner = OwnerId::read(&mut question)?;
    question.end()?;
    records::set_owner_id(head, owner).tell(reply)
}

// Reads a head, up to the question's end.
fn read_head(mut question: QuestionBytes<'_>) -> Result<Head, Mismatch> {
    let head = Head::read(&mut question)?;
    question.end()?;
    Ok(head)
}

// The base epoch.
pub fn base_epoch(question: QuestionBytes<'_>, reply: &mut ReplyBytes<'_>) -> Result<(), Mismatch> {
    records::base_epoch(read_head(question)?).tell(reply)
}

// The owner or none.
pub fn owner_id(question: QuestionBytes<'_>, reply: &mut ReplyBytes<'_>) -> Result<(), Mismatch> {
    records::owner_id(read_head(question)?).tell(reply)
}

// Byte 0.
pub fn type_byte(question: QuestionBytes<'_>, reply: &mut ReplyBytes<'_>) -> Result<(), Mismatch> {
    records::type_byte(read_head(question)?).tell(reply)
}
