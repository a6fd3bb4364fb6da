// Why a call is refused.
ghost use Rattle.std.specs.Prelude.{◌≡◌};
ghost use Rattle.records_spec.specs.Refusals.{number};

// The refusals of documents 01 and 02, in the order of their numbers.
#[derive(Clone, Copy, Debug, PartialEq, Eq)]
pub enum Refusal {
    UnknownType,
    WrongSize,
    NonCanonical,
    DifferentBaseEpoch,
    DifferentOwners,
    Overflow,
    NoStorageAtEpoch,
    // 8, RemovalTooLarge, is no longer given, and no other refusal gets its number.
    TotalTooLarge,
    NoRoom,
    BadTable,
    // 12 and 13 are not given yet.
    IndexMismatch,
}

// The refusal's number.
impl From<Refusal> for u32 {
    ghost from_gives = { λ r n. n ≡ number r };

    fn from(refusal: Refusal) -> u32 {
        match refusal {
            Refusal::UnknownType => 1,
            Refusal::WrongSize => 2,
            Refusal::NonCanonical => 3,
            Refusal::DifferentBaseEpoch => 4,
            Refusal::DifferentOwners => 5,
            Refusal::Overflow => 6,
            Refusal::NoStorageAtEpoch => 7,
            Refusal::TotalTooLarge => 9,
            Refusal::NoRoom => 10,
            Refusal::BadTable => 11,
            Refusal::IndexMismatch => 14,
        }
    }
}
