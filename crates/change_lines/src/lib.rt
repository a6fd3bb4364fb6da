// The list of changes as lines of text.
#![tactic(auto)]

ghost use Rattle.std.specs.Prelude.{◌+◌, ◌≤◌, ◌≡◌, length};
ghost use Rattle.repair_spec.specs.Changes.{line};
ghost use Rattle.change_lines_spec.specs.Text.{words, change_of};
ghost use Rattle.change_lines_spec.specs.Inner.Chunks.{longest_line, OneLine, Chunked};

use change_lines_spec::Chunk;
use listing::{put_decimal, put_text};
use repair_spec::Change;

// The most bytes of a line: `longest_line`, by the proof of `put_lines`.
const LONGEST_LINE: usize = 36;

// The change that a number names; 7 is left where the others do not fit.
fn change_of(number: u8) -> Change
    ensures { result ≡ change_of number }
{
    match number {
        1 => Change::ReEncoded,
        2 => Change::TooLarge,
        3 => Change::NotAboveBase,
        4 => Change::Replaced,
        5 => Change::TailCut,
        6 => Change::Moved,
        _ => Change::KindChanged,
    }
}

// A change's words.
fn words(change: Change) -> &'static [u8]
    ensures { result.now ≡ words change }
{
    match change {
        Change::ReEncoded => b"re-encoded",
        Change::TooLarge => b"too large",
        Change::NotAboveBase => b"not above base",
        Change::Replaced => b"replaced",
        Change::TailCut => b"tail cut",
        Change::Moved => b"moved",
        Change::KindChanged => b"kind changed",
    }
}

// Writes a line at `at`; answers the place behind it.
fn put_change_line(out: &mut [u8], at: usize, offset: usize, change: u8) -> usize
    requires { at + longest_line ≤ length out.old }
    ensures { OneLine (line offset (change_of change)) at result out.old out.new }
{
    let blank = put_decimal(out, at, offset as u64);
    let behind = put_text(out, blank, b" ");
    let end = put_text(out, behind, words(change_of(change)));
    put_text(out, end, b"\n")
}

// Writes lines at the start of `out`, from the line at `from` on, until one might have no room or none is left.
pub fn put_lines(offsets: &[usize], changes: &[u8], from: usize, out: &mut [u8]) -> Chunk
    requires offsets_len { (length offsets.now ≡ length changes.now) × (from ≤ length offsets.now) }
    requires longest_line_in_bounds { longest_line ≤ length out.old }
    ensures { Chunked offsets.now changes.now from result out.old out.new }
{
    let mut size = 0;
    for next in from..offsets.len() {
        if out.len() - size < LONGEST_LINE {
            return Chunk { next, size };
        }
        size = put_change_line(out, size, offsets[next], changes[next]);
    }
    Chunk {
        next: offsets.len(),
        size,
    }
}
