// The text of flags, and of what a call answered.
ghost use Rattle.std.specs.Prelude.{◌≡◌, ◌≤◌, length};
ghost use Rattle.fields_spec.specs.Writing.{Put};
ghost use Rattle.records_spec.specs.Answers.{head_in};
ghost use Rattle.listing_spec.specs.Inner.Heads.{head_text, outcome_text, Listable};
ghost use Rattle.listing_spec.specs.Listed.{record_places};

use crate::lines::{
    line_len, owner_len, put_number_line, put_owner_line, put_record_lines, put_text, records_len,
};
use records_spec::{Head, Refusal};

// The length of the text of flags whose records are all of the two tables.
fn flags_len(head: Head, epochs: &[u16], counts: &[u32]) -> usize
    requires { (length epochs.now ≡ length counts.now) × (length epochs.now ≤ record_places) }
    ensures { result ≡ length (head_text head epochs.now counts.now) }
{
    let first = line_len(b"kind ", records::type_byte(head) as u64) + owner_len(head);
    let base = line_len(b"base ", head.base as u64);
    let last = line_len(b"records ", epochs.len() as u64);
    first + base + records_len(epochs, counts) + last
}

// Writes that text at the start of `out`; answers the place behind it.
fn put_flags(out: &mut [u8], head: Head, epochs: &[u16], counts: &[u32]) -> usize
    requires epochs_len { length epochs.now ≡ length counts.now }
    requires counts_in_bounds { length (head_text head epochs.now counts.now) ≤ length out.old }
    ensures { Put (head_text head epochs.now counts.now) 0 result out.old out.new }
{
    let second = put_number_line(out, 0, b"kind ", records::type_byte(head) as u64);
    let third = put_owner_line(out, second, head);
    let fourth = put_number_line(out, third, b"base ", head.base as u64);
    let last = put_record_lines(out, fourth, epochs, counts);
    put_number_line(out, last, b"records ", epochs.len() as u64)
}

// The length of the text of what a call answered; the records of flags are the first of the two tables.
pub fn answer_len(answered: Result<Option<Head>, Refusal>, epochs: &[u16], counts: &[u32]) -> usize
    requires { Listable (head_in answered) epochs.now counts.now }
    ensures { result ≡ length (outcome_text answered epochs.now counts.now) }
{
    match answered {
        Ok(Some(head)) => flags_len(head, &epochs[..head.records], &counts[..head.records]),
        Ok(None) => 5,
        Err(refusal) => line_len(b"refused ", u32::from(refusal) as u64),
    }
}

// Writes that text at the start of `out`; answers the place behind it.
pub fn put_answer(
    out: &mut [u8],
    answered: Result<Option<Head>, Refusal>,
    epochs: &[u16],
    counts: &[u32],
) -> usize
    requires listable { Listable (head_in answered) epochs.now counts.now }
    requires counts_in_bounds { length (outcome_text answered epochs.now counts.now) ≤ length out.old }
    ensures { Put (outcome_text answered epochs.now counts.now) 0 result out.old out.new }
{
    match answered {
        Ok(Some(head)) => put_flags(out, head, &epochs[..head.records], &counts[..head.records]),
        Ok(None) => put_text(out, 0, b"none\n"),
        Err(refusal) => put_number_line(out, 0, b"refused ", u32::from(refusal) as u64),
    }
}
