// Prints what the flag bytes on standard input say.
#![tactic(auto)]

ghost use Rattle.std.specs.Prelude.{◌≤◌, ◌≡◌, length, take};
ghost use Rattle.io.specs.Counts.{IsPrefixLen};
ghost use Rattle.listing_spec.specs.Listed.{listed, longest_text};

use listing_spec::{LONGEST_TEXT, MOST_LISTED};
use std::io;

// Puts the text at the start of `out`, which has room for every text, so that the refusal does not occur.
fn text_of(src: &[u8], out: &mut [u8]) -> usize
    requires { longest_text ≤ length out.old }
    ensures prefix_len { IsPrefixLen result out.new }
    ensures out_value { take result out.new ≡ listed src.now }
{
    listing::list(src, out).unwrap_or(0)
}

// Lists bytes, with what is lent for the text.
fn show(rt: &HostRuntime, src: &[u8], out: &mut [u8]) -> io::Result<()>
    requires { length out.old ≡ longest_text }
{
    let n = text_of(src, out);
    streams::write_all(&mut rt.stdout(), &mut rt.stderr(), &out[..n])
}

// One byte more than is listed is read, so that too many are seen. The program's status is 0, also where something could not be written.
fn main(rt: HostRuntime) {
    let mut src = [0u8; MOST_LISTED + 1];
    let mut out = [0u8; LONGEST_TEXT];
    match streams::read_all(&mut rt.stdin(), &mut src) {
        Ok(n) => {
            let _ = show(&rt, &src[..n], &mut out);
        }
        Err(_) => streams::say_unread(&mut rt.stderr()),
    }
}
