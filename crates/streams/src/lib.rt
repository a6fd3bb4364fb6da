// Standard input read to its end, and what the programs say where a stream fails.
#![tactic(auto)]

ghost use Rattle.std.specs.Prelude.{◌≡◌, OnOk, codes};
ghost use Rattle.std.specs.Io.KnownBytes.{Appends};
ghost use Rattle.streams.specs.Reading.{meaning, Within, ReadsKnown};

use std::io;
use std::io::{Read, Write};

// What the answer of a read means: so many bytes came, or none since the input has ended, or the read failed.
fn step_of(answer: io::Result<usize>) -> io::Result<Option<usize>>
    ensures { result ≡ meaning answer }
{
    let got = answer?;
    if got == 0 {
        return Ok(None);
    }
    Ok(Some(got))
}

// Reads until the input ends, `buf` is full or a read fails, and answers how many bytes were read. A buffer that is full may not hold all
// of the input. The first read that fails is told, whatever came before it and whatever a next one would answer.
pub fn read_all<R: Read>(reader: &mut R, buf: &mut [u8]) -> io::Result<usize>
    ensures lent { Within result buf.new }
    ensures known { ReadsKnown (R.remaining reader.old) (R.remaining reader.new) result buf.new }
{
    let mut done: usize = 0;
    // no `for`: the place moves by what a read has brought
    while done < buf.len() {
        let Some(got) = step_of(reader.read(&mut buf[done..]))? else {
            return Ok(done);
        };
        done += got;
    }
    Ok(done)
}

// Says something on standard error, which `errors` is.
pub fn say<E: Write>(errors: &mut E, text: &[u8]) -> io::Result<()>
    ensures { OnOk result (Appends (E.contents errors.old) (E.contents errors.new) text.now) }
{
    errors.write_all(text)
}

// Says that standard input could not be read.
pub fn try_say_unread<E: Write>(errors: &mut E) -> io::Result<()>
    ensures { OnOk result (Appends (E.contents errors.old) (E.contents errors.new) (codes "cannot read\n")) }
{
    say(errors, b"cannot read\n")
}

// The same for a caller who has nothing left to do where it is not taken.
pub fn say_unread<E: Write>(errors: &mut E) {
    let _ = try_say_unread(errors);
}

// Writes bytes to standard output, and says so where they are not all taken.
pub fn write_all<W: Write, E: Write>(output: &mut W, errors: &mut E, bytes: &[u8]) -> io::Result<()>
    ensures { OnOk result (Appends (W.contents output.old) (W.contents output.new) bytes.now) }
{
    let written = output.write_all(bytes);
    if written.is_err() {
        let _ = say(errors, b"cannot write\n");
    }
    written
}
