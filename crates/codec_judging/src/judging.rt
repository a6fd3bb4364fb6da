// Judging flag bytes, which writes nothing.
ghost use Rattle.std.specs.Prelude.{◌≡◌, true, false};
ghost use Rattle.codec_spec.specs.Reading.{read_as, read};
ghost use Rattle.records_spec.specs.Flags.{multi};
ghost use Rattle.codec_spec.specs.Calls.{judgement};

use crate::block::judge_records;
use crate::head::{base_in, head_in, head_size};
use crate::record::fault;
use codec_spec::{BLOCK_RECORDS, Fault};
use records_spec::{Head, Kind, Refusal};

// Judges flags of kind 1 or 3.
fn judge_multi(kind: Kind, src: &[u8]) -> Result<Option<Head>, Fault>
    requires { multi kind ≡ true }
    ensures { result ≡ judgement (read_as kind src.now) }
{
    let size = head_size(kind);
    if src.len() < size {
        return Err(fault(Refusal::WrongSize, src.len()));
    }
    let base = base_in(kind, src);
    let mut epochs = [0; BLOCK_RECORDS];
    let mut counts = [0; BLOCK_RECORDS];
    let n = judge_records(src, size, base, &mut epochs, &mut counts)?;
    Ok(Some(head_in(kind, src, n)))
}

// Judges flags of kind 0 or 2.
fn judge_single(kind: Kind, src: &[u8]) -> Result<Option<Head>, Fault>
    requires { multi kind ≡ false }
    ensures { result ≡ judgement (read_as kind src.now) }
{
    if src.len() == head_size(kind) {
        Ok(Some(head_in(kind, src, 0)))
    } else {
        Err(fault(Refusal::WrongSize, src.len()))
    }
}

// Judges flags of a kind, without a look at byte 0.
pub fn judge_as(kind: Kind, src: &[u8]) -> Result<Option<Head>, Fault>
    ensures { result ≡ judgement (read_as kind src.now) }
{
    if records::is_multi(kind) {
        judge_multi(kind, src)
    } else {
        judge_single(kind, src)
    }
}

// Judges flag bytes.
pub fn judge(src: &[u8]) -> Result<Option<Head>, Fault>
    ensures { result ≡ judgement (read src.now) }
{
    if src.is_empty() {
        return Ok(None);
    }
    match Kind::try_from(src[0]) {
        Ok(kind) => judge_as(kind, src),
        Err(refusal) => Err(fault(refusal, 0)),
    }
}
