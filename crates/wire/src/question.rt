// Reading a question, field by field.
use crate::field::Field;
use flags_spec::MergingOwnersStrategy;

// Why nothing agrees: the question is none, or the reply says something else.
#[derive(Clone, Copy)]
pub enum Mismatch {
    NoQuestion,
    Differs,
}

// What is left to read of a question.
#[derive(Drop)]
pub struct QuestionBytes<'a> {
    rest: &'a [u8],
}

impl<'a> QuestionBytes<'a> {
    // A question of which nothing is read yet.
    pub fn new(bytes: &'a [u8]) -> Self {
        QuestionBytes { rest: bytes }
    }

    // The next N bytes.
    pub(crate) fn array<const N: usize>(&mut self) -> Result<[u8; N], Mismatch> {
        let (bytes, rest) = self
            .rest
            .split_first_chunk::<N>()
            .ok_or(Mismatch::NoQuestion)?;
        self.rest = rest;
        Ok(*bytes)
    }

    // A number of bytes, then those bytes.
    pub fn part(&mut self) -> Result<&'a [u8], Mismatch> {
        let n = usize::read(self)?;
        let (bytes, rest) = self.rest.split_at_checked(n).ok_or(Mismatch::NoQuestion)?;
        self.rest = rest;
        Ok(bytes)
    }

    // A strategy: 0 to raise an issue, 1 for ours, 2 for theirs.
    pub fn strategy(&mut self) -> Result<MergingOwnersStrategy, Mismatch> {
        match u8::read(self)? {
            0 => Ok(MergingOwnersStrategy::RaiseIssue),
            1 => Ok(MergingOwnersStrategy::UseOurs),
            2 => Ok(MergingOwnersStrategy::UseTheirs),
            _ => Err(Mismatch::NoQuestion),
        }
    }

    // That the question is whole: all of it is read.
    pub fn end(self) -> Result<(), Mismatch> {
        if self.rest.is_empty() {
            Ok(())
        } else {
            Err(Mismatch::NoQuestion)
        }
    }
}
