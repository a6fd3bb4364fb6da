// Repairs the old flag bytes on standard input: canonical bytes to standard output, the list of changes to standard error.
#![tactic(auto)]

ghost use Rattle.std.specs.Prelude.{◌≤◌, ◌≡◌, length, take};
ghost use Rattle.io.specs.Counts.{IsPrefixLen};
ghost use Rattle.records_spec.specs.Refusals.{number};
ghost use Rattle.listing_spec.specs.Text.{word_line};

use records_spec::Refusal;
use repair_spec::LONGEST_FLAGS;
use std::io;
use streams::say;

// The most bytes that are repaired: a head of 35, and 65,535 records of 12.
const MOST_REPAIRED: usize = 786455;

// The most lines that so many bytes can have: one for two bytes, rounded up.
const MOST_LINES: usize = (MOST_REPAIRED + 1) / 2;

// The longest line that is said of a refusal.
const LONGEST_REFUSAL: usize = 11;

// The most bytes of the list that are written at once.
const LIST_ROOM: usize = 65536;

// Puts what is said of a refusal at the start of `out`; answers the text's length.
fn refusal_text(refusal: Refusal, out: &mut [u8]) -> usize
    requires { 11 ≤ length out.old }
    ensures prefix_len { IsPrefixLen result out.new }
    ensures out_value { take result out.new ≡ word_line "refused " (number refusal) }
{
    listing::put_number_line(out, 0, b"refused ", u64::from(u32::from(refusal)))
}

// Says which refusal there is.
fn say_refused(rt: &HostRuntime, refusal: Refusal) -> io::Result<()> {
    let mut text = [0u8; LONGEST_REFUSAL];
    let n = refusal_text(refusal, &mut text);
    say(&mut rt.stderr(), &text[..n])
}

// Writes the list, chunk by chunk. It ends at a chunk that is not taken whole, so that no line in the midst is missing.
fn write_list(rt: &HostRuntime, offsets: &[usize], changes: &[u8]) -> io::Result<()>
    requires { length offsets.now ≡ length changes.now }
{
    let mut text = [0u8; LIST_ROOM];
    let mut next: usize = 0;
    // no `for`: the place moves by as many lines as a chunk has
    while next < offsets.len() {
        let chunk = change_lines::put_lines(offsets, changes, next, &mut text);
        say(&mut rt.stderr(), &text[..chunk.size])?;
        next = chunk.next;
    }
    Ok(())
}

// What is lent: room for the bytes and one more, so that too many are seen; for the largest answer; and for the longest list that so many bytes
// can have.
#[derive(Drop)]
struct Buffers {
    src: [u8; MOST_REPAIRED + 1],
    out: [u8; LONGEST_FLAGS],
    offsets: [usize; MOST_LINES],
    changes: [u8; MOST_LINES],
}

// Writes so many bytes, and then the list of so many lines.
fn write_repaired(rt: &HostRuntime, bytes: usize, lines: usize, room: &Buffers) -> io::Result<()>
    requires bytes_fit { bytes ≤ length room.now.out }
    requires offsets_fit { lines ≤ length room.now.offsets }
    requires changes_fit { lines ≤ length room.now.changes }
{
    streams::write_all(&mut rt.stdout(), &mut rt.stderr(), &room.out[..bytes])?;
    write_list(rt, &room.offsets[..lines], &room.changes[..lines])
}

// Repairs the first n bytes of what was read.
fn migrate(rt: &HostRuntime, n: usize, room: &mut Buffers) -> io::Result<()>
    requires { n ≤ length room.old.src }
{
    match repair::repair(
        &room.src[..n],
        &mut room.out,
        &mut room.offsets,
        &mut room.changes,
    ) {
        Ok(sizes) => write_repaired(rt, sizes.bytes, sizes.lines, room),
        Err(refusal) => say_refused(rt, refusal),
    }
}

// Reads bytes and repairs them.
fn run(rt: &HostRuntime, room: &mut Buffers) -> io::Result<()> {
    match streams::read_all(&mut rt.stdin(), &mut room.src) {
        Ok(n) if MOST_REPAIRED < n => say(&mut rt.stderr(), b"too long\n"),
        Ok(n) => migrate(rt, n, room),
        Err(_) => streams::try_say_unread(&mut rt.stderr()),
    }
}

// The program's status is 0, also where something could not be written.
fn main(rt: HostRuntime) {
    let mut room = Buffers {
        src: [0; MOST_REPAIRED + 1],
        out: [0; LONGEST_FLAGS],
        offsets: [0; MOST_LINES],
        changes: [0; MOST_LINES],
    };
    let _ = run(&rt, &mut room);
}
