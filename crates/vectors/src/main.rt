// Replays the list of stored answers on standard input, and says how many agree.
#![tactic(auto)]

ghost use Rattle.std.specs.Prelude.{◌≤◌, length};

use std::io::{Read, Write};
use vectors_list::{Tally, TextLine};
use wire::Comparison;

// The most bytes that are read at once.
const PIECE_BYTES: usize = 65536;

// The list as far as it is read: the line that has begun, and the tally of those before it.
#[derive(Drop)]
struct List {
    line: TextLine,
    tally: Tally,
}

impl List {
    // Judges the line, which has ended.
    fn end_line<W: Write>(&mut self, output: &mut W) {
        if self.line.is_passed_over() {
            return;
        }
        let comparison = match self.line.vector() {
            Some((question, reply)) => replay::replay(question, reply),
            None => Comparison::NoQuestion,
        };
        self.tally.note(output, self.line.number(), comparison);
    }

    // Takes a piece of the list.
    fn take<W: Write>(&mut self, output: &mut W, piece: &[u8]) {
        for byte in piece {
            if *byte == b'\n' {
                self.end_line(output);
                self.line.go_on();
            } else {
                self.line.take(*byte);
            }
        }
    }
}

// Reads until the piece is full, the input ends or a read fails; answers how many bytes came.
fn fill<R: Read>(input: &mut R, piece: &mut [u8]) -> usize
    ensures { result ≤ length piece.new }
{
    let mut done: usize = 0;
    // no `for`: the place moves by what a read has brought
    while done < piece.len() {
        match input.read(&mut piece[done..]) {
            Ok(n) if 0 < n => done += n,
            _ => return done,
        }
    }
    done
}

// Reads all of standard input, up to a piece of which nothing came, behind which the last line ends. So an input that goes on behind an end, as a
// terminal's, is read on. A loop has to end, so it has a number of turns that no run uses up.
fn read_list(rt: &HostRuntime, list: &mut List) {
    let mut piece = [0u8; PIECE_BYTES];
    for _ in 0..u64::MAX {
        let got = fill(&mut rt.stdin(), &mut piece);
        if got == 0 {
            break;
        }
        list.take(&mut rt.stdout(), &piece[..got]);
    }
    list.end_line(&mut rt.stdout());
}

fn main(rt: HostRuntime) {
    let mut list = List {
        line: TextLine::first(),
        tally: Tally::new(),
    };
    read_list(&rt, &mut list);
    list.tally.print(&mut rt.stdout());
}
