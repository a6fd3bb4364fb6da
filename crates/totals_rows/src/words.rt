// The order of two rows by words: eight bytes of an owner make one number, so four comparisons decide instead of thirty-two.
ghost use Rattle.std.specs.Prelude.{◌≡◌, ◌+◌, ◌≤◌, length, take, drop};
ghost use Rattle.fields_spec.specs.Big.{said};
ghost use Rattle.records_spec.specs.Flags.{owner_length};
ghost use Rattle.rows_spec.specs.Order.{is_less};
ghost use Rattle.rows_spec.specs.Rows.{row, compared};

// The number that the eight bytes at `at` say. By pairs of bytes, because that shape becomes one load.
fn word(id: &[u8], at: usize) -> u64
    requires { at + 8 ≤ length id.now }
    ensures { result ≡ said (take 8 (drop at id.now)) }
{
    let a = fields::be16_at(id, at) as u64;
    let b = fields::be16_at(id, at + 2) as u64;
    let c = fields::be16_at(id, at + 4) as u64;
    let d = fields::be16_at(id, at + 6) as u64;
    ((a * 65536 + b) * 65536 + c) * 65536 + d
}

// Whether a row of owner a and epoch x stands before one of owner b and epoch y.
pub fn is_less(a: &[u8], x: u16, b: &[u8], y: u16) -> bool
    requires { (length a.now ≡ owner_length) × (length b.now ≡ owner_length) }
    ensures { result ≡ is_less (compared (row a.now x 0) (row b.now y 0)) }
{
    let row = (word(a, 0), word(a, 8), word(a, 16), word(a, 24), x);
    row < (word(b, 0), word(b, 8), word(b, 16), word(b, 24), y)
}
