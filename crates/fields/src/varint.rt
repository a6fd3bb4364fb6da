// Varints: minimal ones of counts up to 32 bits.
ghost use Rattle.std.specs.Prelude.{◌≡◌, true, ◌+◌, ◌≤◌, ◌<◌, nat_lt, length, take, drop, position, IfSome, Ok};
ghost use Rattle.fields_spec.specs.Varint.{varint, found};
ghost use Rattle.fields_spec.specs.Inner.Varints.{Begun, Ending, is_whole, judged_at, read_at};
ghost use Rattle.fields_spec.specs.Writing.{Put};

use fields_spec::{Varint, VarintFault};

// The largest count and the largest number of bytes: 32 bits.
pub const LARGEST: u32 = 4294967295;

// The length of a varint, by the number of significant bits 0 to 32 of what it says.
const LENGTHS: [usize; 33] = [
    1, 1, 1, 1, 1, 1, 1, 1, 2, 2, 2, 2, 2, 2, 2, 3, 3, 3, 3, 3, 3, 3, 4, 4, 4, 4, 4, 4, 4, 5, 5, 5,
    5,
];

// The fifth byte of a count of 32 bits is below this.
const FIFTH_LIMIT: u8 = 16;

// The number of bytes of the minimal varint of `count`.
pub fn varint_len(count: u32) -> usize
    ensures { result ≡ length (varint count) }
{
    let bits = 32 - count.leading_zeros();
    LENGTHS[bits as usize]
}

// Writes the minimal varint of `count` at `at`; answers the place behind it. Unrolled: there are five lengths.
pub fn put_varint(out: &mut [u8], at: usize, count: u32) -> usize
    requires { at + length (varint count) ≤ length out.old }
    ensures { Put (varint count) at result out.old out.new }
{
    if count < 128 {
        out[at] = count as u8;
        return at + 1;
    }
    out[at] = (count % 128 + 128) as u8;
    if count < 16384 {
        out[at + 1] = (count / 128) as u8;
        return at + 2;
    }
    out[at + 1] = (count / 128 % 128 + 128) as u8;
    if count < 2097152 {
        out[at + 2] = (count / 16384) as u8;
        return at + 3;
    }
    out[at + 2] = (count / 16384 % 128 + 128) as u8;
    if count < 268435456 {
        out[at + 3] = (count / 2097152) as u8;
        return at + 4;
    }
    out[at + 3] = (count / 2097152 % 128 + 128) as u8;
    out[at + 4] = (count / 268435456) as u8;
    at + 5
}

// Judges the varint at `at` that ends `k` bytes behind its first: it is longer than minimal where its last byte is 0, and says more than 32 bits
// hold where the fifth byte is too large, or is not the last.
fn end_at(src: &[u8], at: usize, k: usize) -> Result<usize, VarintFault>
    requires { Ending src.now at k }
    ensures { result ≡ judged_at at (found (drop at src.now)) }
{
    let last = src[at + k];
    if last != 0 && (k < 4 || k == 4 && last < FIFTH_LIMIT) {
        Ok(at + k + 1)
    } else {
        Err(VarintFault::NotCanonical(at))
    }
}

// The place of the first byte without the top bit, among the first ten.
fn first_low(src: &[u8]) -> Option<usize>
    ensures { result ≡ position (λ b. nat_lt b 128) (take 10 src.now) }
{
    src.iter().take(10).position(|byte| *byte < 128)
}

// Judges the varint at `at` without what it says, and answers the place behind it: it is incomplete where it does not end within ten bytes.
pub fn judge_varint(src: &[u8], at: usize) -> Result<usize, VarintFault>
    ensures { result ≡ judged_at at (found (drop at src.now)) }
{
    if src.len() <= at {
        return Err(VarintFault::Incomplete(at));
    }
    match first_low(&src[at..]) {
        None => Err(VarintFault::Incomplete(at)),
        Some(0) => Ok(at + 1),
        Some(k) => end_at(src, at, k),
    }
}

// What the whole varint at `at` says, of which two bytes are passed, that say `two`.
fn varint_third(src: &[u8], at: usize, two: u32) -> Varint
    requires src_value { is_whole (found (drop at src.now)) ≡ true }
    requires begun { Begun src.now at 2 two }
    ensures { Ok result ≡ read_at at (found (drop at src.now)) }
{
    let third = src[at + 2];
    let three = two + (third % 128) as u32 * 16384;
    if third < 128 {
        return Varint {
            count: three,
            next: at + 3,
        };
    }
    let fourth = src[at + 3];
    let four = three + (fourth % 128) as u32 * 2097152;
    if fourth < 128 {
        return Varint {
            count: four,
            next: at + 4,
        };
    }
    let fifth = src[at + 4];
    Varint {
        count: four + (fifth % 16) as u32 * 268435456,
        next: at + 5,
    }
}

// What the varint at `at` says, where judging found a whole one.
pub fn varint_at(src: &[u8], at: usize) -> Varint
    requires { is_whole (found (drop at src.now)) ≡ true }
    ensures { Ok result ≡ read_at at (found (drop at src.now)) }
{
    let first = src[at];
    if first < 128 {
        return Varint {
            count: first as u32,
            next: at + 1,
        };
    }
    let second = src[at + 1];
    let two = (first % 128) as u32 + (second % 128) as u32 * 128;
    if second < 128 {
        return Varint {
            count: two,
            next: at + 2,
        };
    }
    varint_third(src, at, two)
}

// Reads the varint at `at` byte by byte, as judging found it. Few are read so: where the bytes end soon, and where it is refused. Kept apart from
// what calls it, whose frequent paths then stay in registers.
#[cold]
#[inline(never)]
fn read_judged(src: &[u8], at: usize) -> Result<Varint, VarintFault>
    ensures { result ≡ read_at at (found (drop at src.now)) }
{
    judge_varint(src, at)?;
    Ok(varint_at(src, at))
}

// Reads the varint at `at`, of which two bytes are passed, that say `two`, where it is right and five bytes are there. One test is for the third
// and the fourth byte, so that nothing is guessed of the third alone. Which of the two is the last is chosen without a jump, since of mixed
// counts it cannot be guessed.
fn quick_third(src: &[u8], at: usize, two: u32) -> Option<Varint>
    requires at_in_bounds { at + 2 ≤ length src.now }
    requires begun { Begun src.now at 2 two }
    ensures { IfSome result (λ v. Ok v ≡ read_at at (found (drop at src.now))) }
{
    if src.len() - at < 5 {
        return None;
    }
    let third = src[at + 2];
    let fourth = src[at + 3];
    let three = two + (third % 128) as u32 * 16384;
    if (127 < third) & (127 < fourth) {
        let four = three + (fourth % 128) as u32 * 2097152;
        return match src[at + 4] {
            fifth @ 1..FIFTH_LIMIT => Some(Varint {
                count: four + fifth as u32 * 268435456,
                next: at + 5,
            }),
            _ => None,
        };
    }
    let (last, part, used) = if 127 < third {
        (fourth, fourth as u32 * 2097152, 4)
    } else {
        (third, 0, 3)
    };
    if last == 0 {
        None
    } else {
        Some(Varint {
            count: three + part,
            next: at + used,
        })
    }
}

// Reads the varint at `at` where it is right and has one or two bytes, or five are there. One and two bytes are the most frequent, and have tests
// of their own.
fn quick_varint(src: &[u8], at: usize) -> Option<Varint>
    ensures { IfSome result (λ v. Ok v ≡ read_at at (found (drop at src.now))) }
{
    let first = *src.get(at)?;
    if first < 128 {
        return Some(Varint {
            count: first as u32,
            next: at + 1,
        });
    }
    let second = *src.get(at + 1)?;
    let two = (first % 128) as u32 + (second % 128) as u32 * 128;
    if 127 < second {
        quick_third(src, at, two)
    } else if second == 0 {
        None
    } else {
        Some(Varint {
            count: two,
            next: at + 2,
        })
    }
}

// Reads the varint at `at`: quickly where that can be done, and else as judging found it.
pub fn read_varint(src: &[u8], at: usize) -> Result<Varint, VarintFault>
    ensures { result ≡ read_at at (found (drop at src.now)) }
{
    match quick_varint(src, at) {
        Some(varint) => Ok(varint),
        None => read_judged(src, at),
    }
}
