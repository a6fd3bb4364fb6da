// What stands in the fields of questions and replies. Numbers are big-endian.
use crate::question::{Mismatch, QuestionBytes};
use crate::reply::ReplyBytes;
use records_spec::{Head, Kind, OWNER_LENGTH, OwnerId};
use rows_spec::{Removed, StorageRemovedBytes};

// What can stand in a field.
pub trait Field: Copy {
    // What a field of zeros says.
    const ZERO: Self;

    // Reads the next field of a question.
    fn read(question: &mut QuestionBytes<'_>) -> Result<Self, Mismatch>;

    // Holds it against the next field of a reply.
    fn tell(&self, reply: &mut ReplyBytes<'_>) -> Result<(), Mismatch>;
}

// The numbers have an impl for each width: `from_be_bytes` is each type's own, and the kit's verdict refuses impls that a macro writes.
impl Field for u8 {
    const ZERO: u8 = 0;

    fn read(question: &mut QuestionBytes<'_>) -> Result<u8, Mismatch> {
        Ok(u8::from_be_bytes(question.array()?))
    }

    fn tell(&self, reply: &mut ReplyBytes<'_>) -> Result<(), Mismatch> {
        reply.tell_bytes(&self.to_be_bytes())
    }
}

impl Field for u16 {
    const ZERO: u16 = 0;

    fn read(question: &mut QuestionBytes<'_>) -> Result<u16, Mismatch> {
        Ok(u16::from_be_bytes(question.array()?))
    }

    fn tell(&self, reply: &mut ReplyBytes<'_>) -> Result<(), Mismatch> {
        reply.tell_bytes(&self.to_be_bytes())
    }
}

impl Field for u32 {
    const ZERO: u32 = 0;

    fn read(question: &mut QuestionBytes<'_>) -> Result<u32, Mismatch> {
        Ok(u32::from_be_bytes(question.array()?))
    }

    fn tell(&self, reply: &mut ReplyBytes<'_>) -> Result<(), Mismatch> {
        reply.tell_bytes(&self.to_be_bytes())
    }
}

impl Field for u64 {
    const ZERO: u64 = 0;

    fn read(question: &mut QuestionBytes<'_>) -> Result<u64, Mismatch> {
        Ok(u64::from_be_bytes(question.array()?))
    }

    fn tell(&self, reply: &mut ReplyBytes<'_>) -> Result<(), Mismatch> {
        reply.tell_bytes(&self.to_be_bytes())
    }
}

// A number of places or bytes, in two bytes.
impl Field for usize {
    const ZERO: usize = 0;

    fn read(question: &mut QuestionBytes<'_>) -> Result<usize, Mismatch> {
        Ok(usize::from(u16::read(question)?))
    }

    fn tell(&self, reply: &mut ReplyBytes<'_>) -> Result<(), Mismatch> {
        u16::try_from(*self)
            .map_err(|_| Mismatch::Differs)?
            .tell(reply)
    }
}

// A truth value: 0 for no, and anything else for yes; a reply has 1.
impl Field for bool {
    const ZERO: bool = false;

    fn read(question: &mut QuestionBytes<'_>) -> Result<bool, Mismatch> {
        Ok(u8::read(question)? != 0)
    }

    fn tell(&self, reply: &mut ReplyBytes<'_>) -> Result<(), Mismatch> {
        u8::from(*self).tell(reply)
    }
}

// An owner or an identifier.
impl Field for OwnerId {
    const ZERO: OwnerId = [0; OWNER_LENGTH];

    fn read(question: &mut QuestionBytes<'_>) -> Result<OwnerId, Mismatch> {
        question.array()
    }

    fn tell(&self, reply: &mut ReplyBytes<'_>) -> Result<(), Mismatch> {
        reply.tell_bytes(self)
    }
}

// Whether there is one, and it, or zeros.
impl<T: Field> Field for Option<T> {
    const ZERO: Option<T> = None;

    fn read(question: &mut QuestionBytes<'_>) -> Result<Option<T>, Mismatch> {
        let given = bool::read(question)?;
        let field = T::read(question)?;
        Ok(given.then_some(field))
    }

    fn tell(&self, reply: &mut ReplyBytes<'_>) -> Result<(), Mismatch> {
        self.is_some().tell(reply)?;
        self.unwrap_or(T::ZERO).tell(reply)
    }
}

// One after the other.
impl<A: Field, B: Field> Field for (A, B) {
    const ZERO: (A, B) = (A::ZERO, B::ZERO);

    fn read(question: &mut QuestionBytes<'_>) -> Result<(A, B), Mismatch> {
        let first = A::read(question)?;
        let second = B::read(question)?;
        Ok((first, second))
    }

    fn tell(&self, reply: &mut ReplyBytes<'_>) -> Result<(), Mismatch> {
        self.0.tell(reply)?;
        self.1.tell(reply)
    }
}

// The head of flags.
impl Field for Head {
    const ZERO: Head = Head {
        kind: Kind::SingleEpoch,
        base: 0,
        owner: [0; OWNER_LENGTH],
        records: 0,
    };

    fn read(question: &mut QuestionBytes<'_>) -> Result<Head, Mismatch> {
        Ok(Head {
            kind: Kind::try_from(u8::read(question)?).map_err(|_| Mismatch::NoQuestion)?,
            base: u16::read(question)?,
            owner: OwnerId::read(question)?,
            records: usize::read(question)?,
        })
    }

    fn tell(&self, reply: &mut ReplyBytes<'_>) -> Result<(), Mismatch> {
        records::type_byte(*self).tell(reply)?;
        self.base.tell(reply)?;
        self.owner.tell(reply)?;
        self.records.tell(reply)
    }
}

// A removal without its rows: its kind, 0 none, 1 a number of bytes, 2 a number of rows; the bytes, and the rows. What its kind does not
// have is not read, and 0 in a reply.
impl Field for StorageRemovedBytes {
    const ZERO: StorageRemovedBytes = StorageRemovedBytes {
        removed: Removed::None,
    };

    fn read(question: &mut QuestionBytes<'_>) -> Result<StorageRemovedBytes, Mismatch> {
        let kind = u8::read(question)?;
        let bytes = u32::read(question)?;
        let rows = usize::read(question)?;
        let removed = match kind {
            0 => Removed::None,
            1 => Removed::Basic(bytes),
            2 => Removed::Sectioned(rows),
            _ => return Err(Mismatch::NoQuestion),
        };
        Ok(StorageRemovedBytes { removed })
    }

    fn tell(&self, reply: &mut ReplyBytes<'_>) -> Result<(), Mismatch> {
        let (kind, bytes, rows) = match self.removed {
            Removed::None => (0u8, 0u32, 0usize),
            Removed::Basic(bytes) => (1, bytes, 0),
            Removed::Sectioned(rows) => (2, 0, rows),
        };
        kind.tell(reply)?;
        bytes.tell(reply)?;
        rows.tell(reply)
    }
}
