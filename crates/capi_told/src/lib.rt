// What the calls answer, as C gets it. In a refused answer everything but the number is 0.
#![tactic(auto)]

ghost use Rattle.std.specs.Prelude.{◌≡◌, Err};
ghost use Rattle.records_spec.specs.Refusals.{number};
ghost use Rattle.records_spec.specs.Answers.{present_in, head_in};
ghost use Rattle.rows_spec.specs.Calls.{told_removal};
ghost use Rattle.records_spec.specs.Outcomes.{answered, refused, ok};
ghost use Rattle.splitting_spec.specs.Calls.{told_split};
ghost use Rattle.records_spec.specs.Flags.{no_head};
ghost use Rattle.rows_spec.specs.declared.removed.Removed.TheVariants.{None};
ghost use Rattle.capi_spec.specs.Told.{head_told, flags_answer, count_told, truth_told, owner_told};
ghost use Rattle.capi_spec.specs.Told.{owner_id_told, removal_told, sum_answer, split_answer, repair_answer};

use capi_spec::{
    CCount, CFlags, CHead, CId, CMaybeOwner, COwner, CRemoval, CRepaired, CSum, CValueSplit,
};
use flags_spec::Choice;
use records_spec::{Head, OWNER_LENGTH, OwnerId, Refusal};
use repair_spec::Sizes;
use rows_spec::{Removed, StorageRemovedBytes};
use splitting_spec::ValueSplit;

// A head, its kind a byte.
pub fn head_told(h: Head) -> CHead
    ensures { result ≡ head_told h }
{
    let owner = h.owner;
    CHead {
        kind: u8::from(h.kind),
        base: h.base,
        owner,
        records: h.records,
    }
}

// Flags, none, or a refusal.
pub fn flags_told(answer: Result<Option<Head>, Refusal>) -> CFlags
    ensures { result ≡ flags_answer (present_in answer) (head_in answer) }
{
    match answer {
        Ok(Some(head)) => CFlags {
            refusal: 0,
            present: 1,
            head: head_told(head),
        },
        Ok(None) => no_flags(0),
        Err(refusal) => no_flags(u32::from(refusal)),
    }
}

// No flags, with a refusal's number or 0.
fn no_flags(refusal: u32) -> CFlags
    ensures { result ≡ record { refusal = refusal; present = 0; head = head_told no_head } }
{
    CFlags {
        refusal,
        present: 0,
        head: head_told(records::no_head()),
    }
}

// The refusal of a call that answers flags, where a byte names nothing.
pub fn bad_flags() -> CFlags
    ensures { result ≡ flags_answer (refused (number Refusal.BadTable)) no_head }
{
    flags_told(Err(Refusal::BadTable))
}

// A number, or a refusal.
pub fn count_told(answer: Result<usize, Refusal>) -> CCount
    ensures { result ≡ count_told (answered answer) }
{
    match answer {
        Ok(n) => CCount {
            refusal: 0,
            count: n as u64,
        },
        Err(why) => CCount {
            refusal: u32::from(why),
            count: 0,
        },
    }
}

// 1 or 0 for yes or no, or a refusal.
pub fn has_told(answer: Result<bool, Refusal>) -> CCount
    ensures { result ≡ truth_told (answered answer) }
{
    count_told(answer.map(|yes| usize::from(yes)))
}

// A number of bytes, or a refusal.
pub fn total_told(answer: Result<u32, Refusal>) -> CCount
    ensures { result ≡ count_told (answered answer) }
{
    count_told(answer.map(|n| n as usize))
}

// The refusal where a byte of the old or the new flags names no kind.
pub fn bad_table() -> CCount
    ensures { result ≡ count_told (refused (number Refusal.BadTable)) }
{
    count_told(Err(Refusal::BadTable))
}

// Whose owner, or a refusal.
pub fn owner_told(choice: Result<Choice, Refusal>) -> COwner
    ensures { result ≡ owner_told choice }
{
    match choice {
        Ok(Choice::Neither) => COwner {
            refusal: 0,
            which: 0,
        },
        Ok(Choice::Ours) => COwner {
            refusal: 0,
            which: 1,
        },
        Ok(Choice::Theirs) => COwner {
            refusal: 0,
            which: 2,
        },
        Err(refusal) => COwner {
            refusal: u32::from(refusal),
            which: 0,
        },
    }
}

// An owner or none.
pub fn owner_id_told(owner: Option<OwnerId>) -> CMaybeOwner
    ensures { result ≡ owner_id_told (ok owner) }
{
    let bytes = owner.unwrap_or([0; OWNER_LENGTH]);
    CMaybeOwner {
        refusal: 0,
        present: u8::from(owner.is_some()),
        id: CId { bytes },
    }
}

// A refusal in place of an owner.
pub fn no_owner_id(refusal: Refusal) -> CMaybeOwner
    ensures { result ≡ owner_id_told (refused (number refusal)) }
{
    CMaybeOwner {
        refusal: u32::from(refusal),
        present: 0,
        id: CId {
            bytes: [0; OWNER_LENGTH],
        },
    }
}

// None: 0 and zeros.
fn no_removal() -> CRemoval
    ensures { result ≡ removal_told None }
{
    CRemoval {
        kind: 0,
        bytes: 0,
        rows: 0,
    }
}

// A removal; what its kind does not have is 0.
fn removal_told(state: StorageRemovedBytes) -> CRemoval
    ensures { result ≡ removal_told state.removed }
{
    match state.removed {
        Removed::None => no_removal(),
        Removed::Basic(bytes) => CRemoval {
            kind: 1,
            bytes,
            rows: 0,
        },
        Removed::Sectioned(rows) => CRemoval {
            kind: 2,
            bytes: 0,
            rows,
        },
    }
}

// A removal, or a refusal.
pub fn sum_told(answer: Result<StorageRemovedBytes, Refusal>) -> CSum
    ensures { result ≡ sum_answer (told_removal answer) }
{
    match answer {
        Ok(state) => CSum {
            refusal: 0,
            removal: removal_told(state),
        },
        Err(refusal) => CSum {
            refusal: u32::from(refusal),
            removal: no_removal(),
        },
    }
}

// A removal and the number of records visited, or a refusal.
pub fn split_told(answer: Result<ValueSplit, Refusal>) -> CValueSplit
    ensures { result ≡ split_answer (told_split answer) }
{
    match answer {
        Ok(split) => CValueSplit {
            refusal: 0,
            removal: removal_told(split.removal),
            visited: split.visited,
        },
        Err(refusal) => CValueSplit {
            refusal: u32::from(refusal),
            removal: no_removal(),
            visited: 0,
        },
    }
}

// How many bytes and lines, or a refusal.
pub fn repair_told(answer: Result<Sizes, Refusal>) -> CRepaired
    ensures { result ≡ repair_answer (answered answer) }
{
    match answer {
        Ok(sizes) => CRepaired {
            refusal: 0,
            bytes: sizes.bytes,
            lines: sizes.lines,
        },
        Err(refusal) => CRepaired {
            refusal: u32::from(refusal),
            bytes: 0,
            lines: 0,
        },
    }
}
