// A line of the list, read byte by byte: hex digits of a question, `=`, hex digits of the reply. Blanks may stand anywhere.
ghost use Rattle.std.specs.Prelude.{◌≤◌};
ghost use Rattle.vectors_list.specs.declared.line.TheConstants.{LINE_BYTES};

// The most bytes that a line says: a question and its reply.
const LINE_BYTES: usize = 2048;

// What has come of a line.
#[derive(Clone, Copy)]
enum LinePart {
    Nothing,
    Question,
    Reply,
    Comment,
    Wrong,
}

// A line: its number, what has come of it, the first digit of a byte whose second is to come, and the bytes of the question and the reply, one
// behind the other, with the places where the reply begins and where it ends.
#[derive(Clone, Copy)]
pub struct TextLine {
    number: u64,
    part: LinePart,
    digit: Option<u8>,
    bytes: [u8; LINE_BYTES],
    turn: usize,
    end: usize,
    ghost in_order: { turn ≤ end },
    ghost in_bytes: { end ≤ LINE_BYTES },
}

impl TextLine {
    // The first line, of which nothing has come.
    pub fn first() -> Self {
        TextLine {
            number: 1,
            part: LinePart::Nothing,
            digit: None,
            bytes: [0; LINE_BYTES],
            turn: 0,
            end: 0,
        }
    }

    // Goes on to the next line, of which nothing has come.
    pub fn go_on(&mut self) {
        self.number = self.number.wrapping_add(1);
        self.part = LinePart::Nothing;
        self.digit = None;
        self.turn = 0;
        self.end = 0;
    }

    // The line's number.
    pub fn number(&self) -> u64 {
        self.number
    }

    // Whether there is nothing on the line, or a comment.
    pub fn is_passed_over(&self) -> bool {
        matches!(self.part, LinePart::Nothing | LinePart::Comment)
    }

    // The question and the reply, where the line has both, of whole bytes.
    pub fn vector(&self) -> Option<(&[u8], &[u8])> {
        match (self.part, self.digit) {
            (LinePart::Reply, None) => Some((
                &self.bytes[..self.turn],
                &self.bytes[self.turn..self.end],
            )),
            _ => None,
        }
    }

    // Takes the next byte of the line.
    pub fn take(&mut self, byte: u8) {
        match (self.part, byte) {
            (LinePart::Comment, _) | (_, b' ' | b'\t' | b'\r') => {}
            (LinePart::Nothing, b'#') => self.part = LinePart::Comment,
            (LinePart::Question, b'=') if self.digit.is_none() => {
                self.part = LinePart::Reply;
                self.turn = self.end;
            }
            _ => match digit_of(byte) {
                Some(digit) => self.take_digit(digit),
                None => self.part = LinePart::Wrong,
            },
        }
    }

    // Takes a digit: the first of a byte, or the second, which makes the line wrong where there is no room for the byte.
    fn take_digit(&mut self, digit: u8) {
        match self.digit {
            None => {
                self.digit = Some(digit);
                if let LinePart::Nothing = self.part {
                    self.part = LinePart::Question;
                }
            }
            Some(first) => {
                self.digit = None;
                if self.end < LINE_BYTES {
                    self.bytes[self.end] = first << 4 | digit;
                    self.end += 1;
                } else {
                    self.part = LinePart::Wrong;
                }
            }
        }
    }
}

// The value of a hex digit.
fn digit_of(byte: u8) -> Option<u8> {
    match byte {
        b'0'..=b'9' => Some(byte - b'0'),
        b'a'..=b'f' => Some(byte - b'a' + 10),
        b'A'..=b'F' => Some(byte - b'A' + 10),
        _ => None,
    }
}
