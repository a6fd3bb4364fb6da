// Big-endian fields of two bytes.
ghost use Rattle.std.specs.Prelude.{◌≡◌, ◌+◌, ◌≤◌, length, take, drop};
ghost use Rattle.fields_spec.specs.Big.{big, said};
ghost use Rattle.fields_spec.specs.Writing.{Put};

// The number that the two bytes at `at` say.
pub fn be16_at(src: &[u8], at: usize) -> u16
    requires { at + 2 ≤ length src.now }
    ensures { result ≡ said (take 2 (drop at src.now)) }
{
    u16::from_be_bytes([src[at], src[at + 1]])
}

// Writes a number in two bytes at `at`; answers the place behind them.
pub fn put_be16(out: &mut [u8], at: usize, n: u16) -> usize
    requires { at + 2 ≤ length out.old }
    ensures { Put (big 2 n) at result out.old out.new }
{
    let [high, low] = n.to_be_bytes();
    out[at] = high;
    out[at + 1] = low;
    at + 2
}
