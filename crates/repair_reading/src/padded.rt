// Varints that are longer than minimal, or say more than 32 bits hold.
ghost use Rattle.std.specs.Prelude.{◌≡◌, suc, ◌+◌, ◌-◌, ◌≤◌, ◌<◌, nat_lt, length, take, drop, position};
ghost use Rattle.fields_spec.specs.Varint.{high, value};
ghost use Rattle.repair_spec.specs.Inner.Steps.{count_capped};

// The first count that is too large.
pub const TOO_LARGE: u64 = 4294967296;

// The place of the first byte without the top bit.
fn closing_byte(src: &[u8]) -> Option<usize>
    ensures { result ≡ position (λ b. nat_lt b 128) src.now }
{
    src.iter().position(|byte| *byte < 128)
}

// The place behind the varint at `at`, which ends inside the bytes.
pub fn end_of(src: &[u8], at: usize) -> usize
    requires { high (drop at src.now) < length (drop at src.now) }
    ensures { result ≡ at + suc (high (drop at src.now)) }
{
    let last = closing_byte(&src[at..]).unwrap_or(0);
    at + last + 1
}

// The same number, or the first too large where it is larger.
fn cap(n: u64) -> u64
    ensures { result ≡ count_capped n }
{
    n.min(TOO_LARGE)
}

// What the groups from `at` up to `end` say as one whole number, or the first too large where that is larger. From the last group down, so that
// no group can push another out.
pub fn capped_value(src: &[u8], at: usize, end: usize) -> u64
    requires { (at ≤ end) × (end ≤ length src.now) }
    ensures { result ≡ count_capped (value (take (end - at) (drop at src.now))) }
{
    let mut says: u64 = 0;
    for byte in src[at..end].iter().rev() {
        says = cap(says * 128 + (*byte % 128) as u64);
    }
    says
}
