// The owner rule, for heads and for encodings.
ghost use Rattle.std.specs.Prelude.{◌≡◌};
ghost use Rattle.records_spec.specs.Flags.{owner_of};
ghost use Rattle.records_spec.specs.Outcomes.{answered};
ghost use Rattle.codec_spec.specs.Reading.{read};
ghost use Rattle.flags_spec.specs.Owners.{disputed, choice, combined_owner};
ghost use Rattle.flags_spec.specs.Parts.{lent};
ghost use Rattle.flags_spec.specs.Calls.{owner_choice, owner_handed};
ghost use Rattle.flags_spec.proofs.Choosing.{owner_found};

use codec_spec::{BEHIND_KIND, BEHIND_OWNER};
use flags_spec::{Choice, MergingOwnersStrategy};
use records_spec::{Head, OwnerId, Refusal};

// The choice between two owners that differ.
fn dispute(strategy: MergingOwnersStrategy) -> Result<Choice, Refusal>
    ensures { result ≡ disputed strategy }
{
    match strategy {
        MergingOwnersStrategy::RaiseIssue => Err(Refusal::DifferentOwners),
        MergingOwnersStrategy::UseOurs => Ok(Choice::Ours),
        MergingOwnersStrategy::UseTheirs => Ok(Choice::Theirs),
    }
}

// The owner rule.
fn choose(
    ours: Option<OwnerId>,
    theirs: Option<OwnerId>,
    strategy: MergingOwnersStrategy,
) -> Result<Choice, Refusal>
    ensures { result ≡ choice strategy ours theirs }
{
    match (ours, theirs) {
        (Some(o), Some(t)) if records::same_owner(o, t) => Ok(Choice::Ours),
        (Some(_), Some(_)) => dispute(strategy),
        (Some(_), None) => Ok(Choice::Ours),
        (None, Some(_)) => Ok(Choice::Theirs),
        (None, None) => Ok(Choice::Neither),
    }
}

// The owner rule, for heads.
pub fn choose_owner(
    ours: Head,
    theirs: Head,
    strategy: MergingOwnersStrategy,
) -> Result<Choice, Refusal>
    ensures { result ≡ choice strategy (owner_of ours) (owner_of theirs) }
{
    choose(records::owner_id(ours), records::owner_id(theirs), strategy)
}

// The owner that the rule chose, or none.
pub fn combine_owners(
    ours: Head,
    theirs: Head,
    strategy: MergingOwnersStrategy,
) -> Result<Option<OwnerId>, Refusal>
    ensures { answered result ≡ combined_owner strategy (owner_of ours) (owner_of theirs) }
{
    match choose_owner(ours, theirs, strategy)? {
        Choice::Ours => Ok(records::owner_id(ours)),
        Choice::Theirs => Ok(records::owner_id(theirs)),
        Choice::Neither => Ok(None),
    }
}

// The owner in an encoding, or none, or why it is refused.
fn owner_read(encoding: &[u8]) -> Result<Option<OwnerId>, Refusal>
    ensures { result ≡ owner_found (read encoding.now) }
{
    match codec::judge(encoding) {
        Ok(None) => Ok(None),
        Ok(Some(head)) => Ok(records::owner_id(head)),
        Err(fault) => Err(fault.refusal),
    }
}

// Whose owner stands in two encodings, or the refusal: ours read first, then theirs, then the owner rule.
pub fn choose_owner_id(
    ours: &[u8],
    theirs: &[u8],
    strategy: MergingOwnersStrategy,
) -> Result<Choice, Refusal>
    ensures { result ≡ owner_choice strategy ours.now theirs.now }
{
    let our_owner = owner_read(ours)?;
    let their_owner = owner_read(theirs)?;
    choose(our_owner, their_owner, strategy)
}

// The chosen owner, as a part of the encoding that holds it. Where neither is owned or the choice is refused, the part is empty.
pub fn combine_owner_id<'a>(
    ours: &'a [u8],
    theirs: &'a [u8],
    strategy: MergingOwnersStrategy,
) -> &'a [u8]
    ensures { lent result ≡ owner_handed strategy (lent ours.entry) (lent theirs.entry) }
{
    match choose_owner_id(ours, theirs, strategy) {
        Ok(Choice::Ours) => &ours[BEHIND_KIND..BEHIND_OWNER],
        Ok(Choice::Theirs) => &theirs[BEHIND_KIND..BEHIND_OWNER],
        Ok(Choice::Neither) | Err(_) => &ours[..0],
    }
}
