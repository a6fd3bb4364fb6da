// What C gives, as the calls take it. A byte that names no kind, removal or strategy is found before a call is made.
#![tactic(auto)]

ghost use Rattle.std.specs.Prelude.{◌≡◌, ◌&&◌};
ghost use Rattle.capi_spec.specs.Given.{is_true, is_kind, is_kind_if, kind_found, head_given, changes_given};
ghost use Rattle.capi_spec.specs.Given.{is_strategy, strategy_given, can_merge, can_replace, is_removal, removed_given};
ghost use Rattle.records_spec.specs.Flags.{kind_of_byte};

use capi_spec::{CHead, CRemoval};
use codec_spec::Changes;
use flags_spec::MergingOwnersStrategy;
use records_spec::{Head, Kind};
use rows_spec::{Removed, StorageRemovedBytes};

// Whether a byte says yes.
pub fn is_true(byte: u8) -> bool
    ensures { result ≡ is_true byte }
{
    0 < byte
}

// Whether a byte is that of a kind.
pub fn is_kind(byte: u8) -> bool
    ensures { result ≡ is_kind byte }
{
    Kind::try_from(byte).is_ok()
}

// Whether flags are absent or their byte is that of a kind; absent ones are not looked at.
pub fn is_kind_if(present: bool, flags: CHead) -> bool
    ensures { result ≡ is_kind_if present flags }
{
    !present || is_kind(flags.kind)
}

// The kind of a byte; any, where it has none.
fn kind_given(byte: u8) -> Kind
    ensures { result ≡ kind_found (kind_of_byte byte) }
{
    Kind::try_from(byte).unwrap_or(Kind::SingleEpoch)
}

// The head that C's head stands for.
pub fn head_given(given: CHead) -> Head
    ensures { result ≡ head_given given }
{
    let owner = given.owner;
    Head {
        kind: kind_given(given.kind),
        base: given.base,
        owner,
        records: given.records,
    }
}

// The changes, if given.
pub fn changes_given(given: u8, count: u16, size: u8) -> Option<Changes>
    ensures { result ≡ changes_given given count size }
{
    if is_true(given) {
        Some(Changes { count, size })
    } else {
        None
    }
}

// Whether a byte is that of a strategy.
pub fn is_strategy(byte: u8) -> bool
    ensures { result ≡ is_strategy byte }
{
    byte <= 2
}

// The strategy of a byte.
pub fn strategy_given(byte: u8) -> MergingOwnersStrategy
    ensures { result ≡ strategy_given byte }
{
    match byte {
        0 => MergingOwnersStrategy::RaiseIssue,
        1 => MergingOwnersStrategy::UseOurs,
        _ => MergingOwnersStrategy::UseTheirs,
    }
}

// Whether the bytes that a merge is given are those of kinds and of a strategy; absent ours is not looked at.
pub fn can_merge(present: bool, ours: CHead, theirs: CHead, strategy: u8) -> bool
    ensures { result ≡ can_merge present ours theirs strategy }
{
    is_kind_if(present, ours) && is_kind(theirs.kind) && is_strategy(strategy)
}

// The same for a merge with removed bytes, and whether the byte of the removal is one.
pub fn can_remove(
    present: bool,
    ours: CHead,
    theirs: CHead,
    strategy: u8,
    removal: CRemoval,
) -> bool
    ensures { result ≡ (can_merge present ours theirs strategy && is_removal removal.kind) }
{
    can_merge(present, ours, theirs, strategy) && is_removal(removal.kind)
}

// Whether the bytes of the old and the new flags are those of kinds; absent flags are not looked at.
pub fn can_replace(old_present: u8, old_flags: CHead, new_present: u8, new_flags: CHead) -> bool
    ensures { result ≡ can_replace old_present old_flags new_present new_flags }
{
    is_kind_if(is_true(old_present), old_flags) && is_kind_if(is_true(new_present), new_flags)
}

// Whether a byte is that of a removal.
pub fn is_removal(byte: u8) -> bool
    ensures { result ≡ is_removal byte }
{
    byte <= 2
}

// Whether the bytes of both removals are.
pub fn can_sum(lhs: CRemoval, rhs: CRemoval) -> bool
    ensures { result ≡ (is_removal lhs.kind && is_removal rhs.kind) }
{
    is_removal(lhs.kind) && is_removal(rhs.kind)
}

// The removal that C's removal stands for.
pub fn removal_given(given: CRemoval) -> StorageRemovedBytes
    ensures { result.removed ≡ removed_given given }
{
    let removed = match given.kind {
        0 => Removed::None,
        1 => Removed::Basic(given.bytes),
        _ => Removed::Sectioned(given.rows),
    };
    StorageRemovedBytes { removed }
}
