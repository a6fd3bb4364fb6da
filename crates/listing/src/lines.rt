// The lines of the text.
ghost use Rattle.std.specs.Prelude.{◌≡◌, ◌++◌, ◌+◌, ◌*◌, ◌≤◌, length};
ghost use Rattle.records_spec.specs.Answers.{records_were};
ghost use Rattle.fields_spec.specs.Writing.{Put};
ghost use Rattle.records_spec.specs.Tables.{records_of, ◌⦂◌};
ghost use Rattle.records_spec.specs.Flags.{owner_of};
ghost use Rattle.listing_spec.specs.Inner.Sizes.{most_digits, longest_owner_line, longest_record_line, Sized};
ghost use Rattle.listing_spec.specs.Text.{ascii, decimal, owner_line, record_line, record_texts};
ghost use Rattle.listing_spec.specs.Listed.{record_places};

use crate::digits::{decimal_len, put_decimal, put_hex};
use records_spec::Head;

// Writes a text at `at`; answers the place behind it.
pub fn put_text(out: &mut [u8], at: usize, text: &[u8]) -> usize
    requires { at + length text.now ≤ length out.old }
    ensures { Put text.now at result out.old out.new }
{
    let end = at + text.len();
    out[at..end].copy_from_slice(text);
    end
}

// The length of a line of a word and a number.
pub fn line_len(word: &[u8], n: u64) -> usize
    ensures { Sized (word.now ++ (decimal n ++ ascii "\n")) (length word.now + most_digits + 1) result }
{
    word.len() + decimal_len(n) + 1
}

// Writes a line of a word and a number at `at`; answers the place behind it.
pub fn put_number_line(out: &mut [u8], at: usize, word: &[u8], n: u64) -> usize
    requires { at + length (word.now ++ (decimal n ++ ascii "\n")) ≤ length out.old }
    ensures { Put (word.now ++ (decimal n ++ ascii "\n")) at result out.old out.new }
{
    let number = put_text(out, at, word);
    let end = put_decimal(out, number, n);
    put_text(out, end, b"\n")
}

// The length of the owner's line, if there is an owner.
pub fn owner_len(head: Head) -> usize
    ensures { Sized (owner_line (owner_of head)) longest_owner_line result }
{
    if records::is_owned(head.kind) {
        7 + 2 * head.owner.len()
    } else {
        0
    }
}

// Writes the owner's line at `at`, if there is an owner; answers the place behind it.
pub fn put_owner_line(out: &mut [u8], at: usize, head: Head) -> usize
    requires { at + length (owner_line (owner_of head)) ≤ length out.old }
    ensures { Put (owner_line (owner_of head)) at result out.old out.new }
{
    if records::is_owned(head.kind) {
        let digits = put_text(out, at, b"owner ");
        let end = put_hex(out, digits, &head.owner);
        put_text(out, end, b"\n")
    } else {
        at
    }
}

// The length of a record's line.
pub fn record_len(epoch: u16, count: u32) -> usize
    ensures { Sized (record_line (epoch ⦂ count)) longest_record_line result }
{
    6 + decimal_len(epoch as u64) + line_len(b" bytes ", count as u64)
}

// Writes a record's line at `at`; answers the place behind it.
pub fn put_record_line(out: &mut [u8], at: usize, epoch: u16, count: u32) -> usize
    requires { at + length (record_line (epoch ⦂ count)) ≤ length out.old }
    ensures { Put (record_line (epoch ⦂ count)) at result out.old out.new }
{
    let number = put_text(out, at, b"epoch ");
    let end = put_decimal(out, number, epoch as u64);
    put_number_line(out, end, b" bytes ", count as u64)
}

// The length of all records' lines.
pub fn records_len(epochs: &[u16], counts: &[u32]) -> usize
    requires { (length epochs.now ≡ length counts.now) × (length epochs.now ≤ record_places) }
    ensures { Sized (record_texts (records_were epochs.now counts.now)) (longest_record_line * record_places) result }
{
    let mut size = 0;
    for (epoch, count) in epochs.iter().zip(counts) {
        size += record_len(*epoch, *count);
    }
    size
}

// Writes all records' lines at `at`; answers the place behind them.
pub fn put_record_lines(out: &mut [u8], at: usize, epochs: &[u16], counts: &[u32]) -> usize
    requires epochs_len { length epochs.now ≡ length counts.now }
    requires counts_in_bounds { at + length (record_texts (records_of epochs.now counts.now)) ≤ length out.old }
    ensures { Put (record_texts (records_were epochs.now counts.now)) at result out.old out.new }
{
    let mut i = at;
    for (epoch, count) in epochs.iter().zip(counts) {
        i = put_record_line(out, i, *epoch, *count);
    }
    i
}
