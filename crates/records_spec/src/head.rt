// The head of flags, by value.
ghost use Rattle.std.specs.Prelude.{◌≡◌, ok_or};
ghost use Rattle.records_spec.specs.Flags.{type_byte, kind_of_byte};
ghost use Rattle.records_spec.specs.declared.refusal.Refusal.TheVariants.{UnknownType};

use crate::refusal::Refusal;

// The bytes of an owner: `owner_length`, by what `records::no_head` ensures.
pub const OWNER_LENGTH: usize = 32;

// Who paid.
pub type OwnerId = [u8; OWNER_LENGTH];

// The four kinds, in the order of their bytes.
#[derive(Clone, Copy, Debug, PartialEq, Eq)]
pub enum Kind {
    SingleEpoch,
    MultiEpoch,
    SingleEpochOwned,
    MultiEpochOwned,
}

// The kind's byte, 0 to 3.
impl From<Kind> for u8 {
    ghost from_gives = { λ k b. b ≡ type_byte k };

    fn from(kind: Kind) -> u8 {
        match kind {
            Kind::SingleEpoch => 0,
            Kind::MultiEpoch => 1,
            Kind::SingleEpochOwned => 2,
            Kind::MultiEpochOwned => 3,
        }
    }
}

// The kind that a byte names, if it is at most 3.
impl TryFrom<u8> for Kind {
    type Error = Refusal;

    ghost try_from_gives = { λ b k. k ≡ ok_or (kind_of_byte b) UnknownType };

    fn try_from(byte: u8) -> Result<Kind, Refusal> {
        match byte {
            0 => Ok(Kind::SingleEpoch),
            1 => Ok(Kind::MultiEpoch),
            2 => Ok(Kind::SingleEpochOwned),
            3 => Ok(Kind::MultiEpochOwned),
            _ => Err(Refusal::UnknownType),
        }
    }
}

// Flags without their records, which stand in the first `records` places of two tables.
#[derive(Clone, Copy)]
pub struct Head {
    pub kind: Kind,
    pub base: u16,
    pub owner: OwnerId,
    pub records: usize,
}
