// Holding an answer against a stored reply, field by field.
use crate::call::Call;
use crate::field::Field;
use crate::question::Mismatch;
use records_spec::Refusal;

// What comes of a question and its stored reply.
#[derive(Clone, Copy)]
pub enum Comparison {
    Agrees(Call),
    Differs(Call),
    NoQuestion,
}

// What is left of a reply, of which all before it agrees.
#[derive(Drop)]
pub struct ReplyBytes<'a> {
    rest: &'a [u8],
}

impl<'a> ReplyBytes<'a> {
    // A reply against which nothing is held yet.
    pub fn new(bytes: &'a [u8]) -> Self {
        ReplyBytes { rest: bytes }
    }

    // Some bytes, without their number.
    pub(crate) fn tell_bytes(&mut self, bytes: &[u8]) -> Result<(), Mismatch> {
        self.rest = self.rest.strip_prefix(bytes).ok_or(Mismatch::Differs)?;
        Ok(())
    }

    // A number of bytes, then those bytes.
    pub fn tell_part(&mut self, bytes: &[u8]) -> Result<(), Mismatch> {
        bytes.len().tell(self)?;
        self.tell_bytes(bytes)
    }

    // 0 and what a call answered; or a refusal's number, and zeros.
    pub fn tell_answer<T: Field>(&mut self, answer: Result<T, Refusal>) -> Result<(), Mismatch> {
        let (number, answered) = match answer {
            Ok(answered) => (0, answered),
            Err(refusal) => (u32::from(refusal), T::ZERO),
        };
        u8::try_from(number)
            .map_err(|_| Mismatch::Differs)?
            .tell(self)?;
        answered.tell(self)
    }

    // That the reply is at its end.
    pub fn end(self) -> Result<(), Mismatch> {
        if self.rest.is_empty() {
            Ok(())
        } else {
            Err(Mismatch::Differs)
        }
    }
}
