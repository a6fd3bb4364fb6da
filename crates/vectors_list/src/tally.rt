// How many answers agree and how many differ.
use std::fmt;
use std::fmt::Write as _;
use std::io::Write;
use wire::{CALLS, Comparison};

// One more than the largest number of a call.
const NUMBERS: usize = 27;

// The most faults that are named.
const NAMED: u64 = 10;

// How many answers agree, and how many differ.
#[derive(Clone, Copy)]
struct Count {
    agree: u64,
    differ: u64,
}

impl Count {
    // Counts one that agrees.
    fn agrees(&mut self) {
        self.agree = self.agree.wrapping_add(1);
    }

    // Counts one that differs.
    fn differs(&mut self) {
        self.differ = self.differ.wrapping_add(1);
    }
}

// How many of so many agree.
impl fmt::Display for Count {
    fn fmt<W: fmt::Write>(&self, f: &mut fmt::Formatter<W>) -> fmt::Result {
        let agree = self.agree;
        let all = agree.wrapping_add(self.differ);
        write!(f, "{agree} of {all}")
    }
}

// An output that is written piece by piece: of a piece that is not taken the next one is tried.
#[derive(Drop)]
struct Pieces<'a, W> {
    output: &'a mut W,
}

impl<W: Write> fmt::Write for Pieces<'_, W> {
    fn write_str(&mut self, text: &str) -> fmt::Result {
        let _ = self.output.write_all(text.as_bytes());
        Ok(())
    }
}

// The answers of each call, by its number, and all answers, among which lines that are no vectors count as those that differ.
#[derive(Drop)]
pub struct Tally {
    by_call: [Count; NUMBERS],
    all: Count,
}

impl Tally {
    // The tally before the first line.
    pub fn new() -> Self {
        let none = Count {
            agree: 0,
            differ: 0,
        };
        Tally {
            by_call: [none; NUMBERS],
            all: none,
        }
    }

    // Counts what came of the line of a number, and names it where it is one of the first that differ.
    pub fn note<W: Write>(&mut self, output: &mut W, number: u64, comparison: Comparison) {
        match comparison {
            Comparison::Agrees(call) => {
                self.by_call[call as usize].agrees();
                self.all.agrees();
            }
            Comparison::Differs(call) => {
                self.name(output, number, format_args!("{call} differs\n"));
                self.by_call[call as usize].differs();
                self.all.differs();
            }
            Comparison::NoQuestion => {
                self.name(output, number, "not a vector\n");
                self.all.differs();
            }
        }
    }

    // Says what is wrong with the line of a number, where not enough are named yet.
    fn name<W: Write>(&self, output: &mut W, number: u64, fault: impl fmt::Display + Drop) {
        if self.all.differ < NAMED {
            let _ = write!(Pieces { output }, "line {number}: {fault}");
        }
    }

    // Writes the line of each call, and the last line.
    pub fn print<W: Write>(&self, output: &mut W) {
        for call in CALLS {
            let count = self.by_call[call as usize];
            let _ = writeln!(Pieces { output }, "{call}: {count}");
        }
        let all = self.all;
        let _ = writeln!(Pieces { output }, "{all} answers agree");
    }
}
