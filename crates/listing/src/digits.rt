// Numbers and bytes as digits.
ghost use Rattle.std.specs.Prelude.{◌≡◌, ◌+◌, ◌≤◌, ◌<◌, length};
ghost use Rattle.fields_spec.specs.Writing.{Put};
ghost use Rattle.listing_spec.specs.Inner.Sizes.{most_digits, Sized};
ghost use Rattle.listing_spec.specs.Text.{decimal, hex_digit, hex};

// The number of decimal digits of `n`: 0 has one, as 1 has.
pub fn decimal_len(n: u64) -> usize
    ensures { Sized (decimal n) most_digits result }
{
    n.max(1).ilog10() as usize + 1
}

// Writes `n` in decimal at `at`, from its last digit to its first; answers the place behind it.
pub fn put_decimal(out: &mut [u8], at: usize, n: u64) -> usize
    requires { at + length (decimal n) ≤ length out.old }
    ensures { Put (decimal n) at result out.old out.new }
{
    let end = at + decimal_len(n);
    let mut rest = n;
    for i in (at..end).rev() {
        out[i] = b'0' + (rest % 10) as u8;
        rest /= 10;
    }
    end
}

// The digit of a number below 16.
fn hex_digit(d: u8) -> u8
    requires { d < 16 }
    ensures { result ≡ hex_digit d }
{
    if d < 10 { b'0' + d } else { b'a' + (d - 10) }
}

// Writes two digits for each byte at `at`; answers the place behind them.
pub fn put_hex(out: &mut [u8], at: usize, bytes: &[u8]) -> usize
    requires { at + length (hex bytes.now) ≤ length out.old }
    ensures { Put (hex bytes.now) at result out.old out.new }
{
    let mut i = at;
    for byte in bytes {
        out[i] = hex_digit(byte / 16);
        out[i + 1] = hex_digit(byte % 16);
        i += 2;
    }
    i
}
