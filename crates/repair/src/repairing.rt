// Repairing old flag bytes: reading them as a map would, writing canonical ones, and listing each change.
ghost use Rattle.std.specs.Prelude.{◌≡◌, true, false, List, [], ℕ, ◌≤◌, ◌<◌, length};
ghost use Rattle.records_spec.specs.Flags.{multi};
ghost use Rattle.codec_spec.specs.Bytes.{head_size};
ghost use Rattle.records_spec.specs.Outcomes.{answered, ok, after};
ghost use Rattle.repair_spec.specs.Repairing.{repaired_as};
ghost use Rattle.repair_spec.specs.Calls.{repaired_into, placing_repair, repair_lent, repair_was, repair_left};
ghost use Rattle.repair_spec.specs.Inner.Steps.{kind_left, Blank, Settled, Ready};
ghost use Rattle.repair_spec.specs.Limits.{all_epochs};

use crate::marking::{gather, mark};
use records_spec::{Head, Kind, Refusal};
use repair_listing::list_changes;
use repair_spec::{ALL_EPOCHS, Sizes};

// Writes the flags that are left and lists the changes, where both have room. The lines are counted first.
fn settle(
    kind: Kind,
    src: &[u8],
    places: &[usize],
    head: Head,
    epochs: &[u16],
    counts: &[u32],
    out: &mut [u8],
    offsets: &mut [usize],
    changes: &mut [u8],
) -> Result<Sizes, Refusal>
    requires settled { Settled kind src.now places.now head.records }
    requires ready { Ready kind src.now head epochs.now counts.now }
    ensures { let repair_lent = repair_was out.old offsets.old changes.old in
        after (answered result) (repair_left out.new offsets.new changes.new) ≡ placing_repair (repaired_as kind src.now) repair_lent }
{
    let lines = list_changes(kind, src, places, head.records, &mut [], &mut []);
    if !records::fit(lines, offsets.len(), changes.len()) {
        return Err(Refusal::NoRoom);
    }
    let bytes = codec::serialize(head, epochs, counts, out)?;
    list_changes(kind, src, places, head.records, offsets, changes);
    Ok(Sizes { bytes, lines })
}

// Repairs bytes of kind 0 or 2.
fn repair_single(
    kind: Kind,
    src: &[u8],
    out: &mut [u8],
    offsets: &mut [usize],
    changes: &mut [u8],
) -> Result<Sizes, Refusal>
    requires { (multi kind ≡ false) × (head_size kind ≤ length src.now) }
    ensures { let repair_lent = repair_was out.old offsets.old changes.old in
        after (answered result) (repair_left out.new offsets.new changes.new) ≡ placing_repair (repaired_as kind src.now) repair_lent }
{
    let head = codec::head_in(kind, src, 0);
    settle(kind, src, &[], head, &[], &[], out, offsets, changes)
}

// The kind of flags with so many records: kind 0 or 2 where nothing is left.
fn kind_left(kind: Kind, records: usize) -> Kind
    requires { multi kind ≡ true }
    ensures { result ≡ kind_left kind records }
{
    if 0 < records {
        kind
    } else if records::is_owned(kind) {
        Kind::SingleEpochOwned
    } else {
        Kind::SingleEpoch
    }
}

// Repairs bytes of kind 1 or 3 with tables by epoch, which come as zeros.
fn repair_by(
    kind: Kind,
    src: &[u8],
    places: &mut [usize],
    epochs: &mut [u16],
    counts: &mut [u32],
    out: &mut [u8],
    offsets: &mut [usize],
    changes: &mut [u8],
) -> Result<Sizes, Refusal>
    requires kind_value { (multi kind ≡ true) × (head_size kind ≤ length src.now) }
    requires blank { Blank places.old × Blank counts.old × (all_epochs ≤ length epochs.old) }
    ensures { let repair_lent = repair_was out.old offsets.old changes.old in
        after (answered result) (repair_left out.new offsets.new changes.new) ≡ placing_repair (repaired_as kind src.now) repair_lent }
{
    let start = codec::head_size(kind);
    let base = codec::base_in(kind, src);
    mark(src, start, base, places, counts);
    let n = gather(base, places, epochs, counts);
    let head = codec::head_in(kind_left(kind, n), src, n);
    settle(
        kind, src, places, head, epochs, counts, out, offsets, changes,
    )
}

// Repairs bytes of kind 1 or 3.
fn repair_multi(
    kind: Kind,
    src: &[u8],
    out: &mut [u8],
    offsets: &mut [usize],
    changes: &mut [u8],
) -> Result<Sizes, Refusal>
    requires { (multi kind ≡ true) × (head_size kind ≤ length src.now) }
    ensures { let repair_lent = repair_was out.old offsets.old changes.old in
        after (answered result) (repair_left out.new offsets.new changes.new) ≡ placing_repair (repaired_as kind src.now) repair_lent }
{
    let mut places = [0usize; ALL_EPOCHS];
    let mut epochs = [0u16; ALL_EPOCHS];
    let mut counts = [0u32; ALL_EPOCHS];
    repair_by(
        kind,
        src,
        &mut places,
        &mut epochs,
        &mut counts,
        out,
        offsets,
        changes,
    )
}

// Repairs bytes of a kind, without a look at byte 0.
fn repair_as(
    kind: Kind,
    src: &[u8],
    out: &mut [u8],
    offsets: &mut [usize],
    changes: &mut [u8],
) -> Result<Sizes, Refusal>
    ensures { let repair_lent = repair_was out.old offsets.old changes.old in
        after (answered result) (repair_left out.new offsets.new changes.new) ≡ placing_repair (repaired_as kind src.now) repair_lent }
{
    if src.len() < codec::head_size(kind) {
        Err(Refusal::WrongSize)
    } else if records::is_multi(kind) {
        repair_multi(kind, src, out, offsets, changes)
    } else {
        repair_single(kind, src, out, offsets, changes)
    }
}

// Repairs bytes that reading refuses, by the kind that byte 0 names.
fn repair_faulty(
    src: &[u8],
    out: &mut [u8],
    offsets: &mut [usize],
    changes: &mut [u8],
) -> Result<Sizes, Refusal>
    requires { 0 < length src.now }
    ensures { after (answered result) (repair_left out.new offsets.new changes.new) ≡ repaired_into src.now (repair_was out.old offsets.old changes.old) }
{
    let kind = Kind::try_from(src[0])?;
    repair_as(kind, src, out, offsets, changes)
}

// Writes canonical bytes as they are; there is no change to list.
fn keep(src: &[u8], out: &mut [u8]) -> Result<Sizes, Refusal>
    ensures { (os cs : List ℕ) → after (answered result) (repair_lent out.new os cs)
        ≡ placing_repair (ok (record { bytes = src.now; lines = [] })) (repair_lent out.old os cs) }
{
    if out.len() < src.len() {
        return Err(Refusal::NoRoom);
    }
    // byte by byte: `copy_from_slice` of so many bytes would be a call of C's `memmove`, which the archive asks of nobody
    for k in 0..src.len() {
        out[k] = src[k];
    }
    Ok(Sizes {
        bytes: src.len(),
        lines: 0,
    })
}

// Repairs old flag bytes: canonical ones go to the start of `out`, and the changes, each with its input offset, to the start of
// `offsets` and `changes`. Most bytes are canonical already, so reading is tried first; the tables by epoch are only made for others.
pub fn repair(
    src: &[u8],
    out: &mut [u8],
    offsets: &mut [usize],
    changes: &mut [u8],
) -> Result<Sizes, Refusal>
    ensures { after (answered result) (repair_left out.new offsets.new changes.new) ≡ repaired_into src.now (repair_was out.old offsets.old changes.old) }
{
    match codec::judge(src) {
        Ok(None) => Ok(Sizes { bytes: 0, lines: 0 }),
        Ok(Some(_)) => keep(src, out),
        Err(_) => repair_faulty(src, out, offsets, changes),
    }
}
