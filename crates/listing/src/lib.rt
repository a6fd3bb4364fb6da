// Flags as lines of text.
#![tactic(auto)]

mod digits;
mod flags;
mod lines;

ghost use Rattle.std.specs.Prelude.{◌≡◌, ◌≤◌, length};
ghost use Rattle.records_spec.specs.Answers.{writing};
ghost use Rattle.records_spec.specs.Outcomes.{after, answered};
ghost use Rattle.listing_spec.specs.Listed.{listed, most_listed, record_places};

use crate::flags::{answer_len, put_answer};
pub use digits::put_decimal;
pub use lines::{put_number_line, put_text};
use listing_spec::{MOST_LISTED, RECORD_PLACES};
use records_spec::Refusal;

// Lists bytes that are not too many, by way of two tables that have room for the records of so many bytes.
fn list_flags(
    src: &[u8],
    epochs: &mut [u16],
    counts: &mut [u32],
    out: &mut [u8],
) -> Result<usize, Refusal>
    requires src_len_bound { length src.now ≤ most_listed }
    requires epochs_len { (length epochs.old ≡ record_places) × (length counts.old ≡ record_places) }
    ensures { after (answered result) out.new ≡ writing (listed src.now) out.old }
{
    let answered = codec::deserialize(src, epochs, counts);
    if out.len() < answer_len(answered, epochs, counts) {
        return Err(Refusal::NoRoom);
    }
    Ok(put_answer(out, answered, epochs, counts))
}

// Writes a text at the start of `out`, where it has room.
fn write_text(text: &[u8], out: &mut [u8]) -> Result<usize, Refusal>
    ensures { after (answered result) out.new ≡ writing text.now out.old }
{
    if out.len() < text.len() {
        return Err(Refusal::NoRoom);
    }
    Ok(put_text(out, 0, text))
}

// Lists flag bytes at the start of `out`; answers the text's length.
#[tactic(auto, using(listing_spec::proofs::Bounds::listed_long))]
pub fn list(src: &[u8], out: &mut [u8]) -> Result<usize, Refusal>
    ensures { after (answered result) out.new ≡ writing (listed src.now) out.old }
{
    if MOST_LISTED < src.len() {
        return write_text(b"too long\n", out);
    }
    let mut epochs = [0u16; RECORD_PLACES];
    let mut counts = [0u32; RECORD_PLACES];
    list_flags(src, &mut epochs, &mut counts, out)
}
