// The length of a varint by the limits that its count passes.
ghost use Rattle.std.specs.Prelude.{◌≡◌, length};
ghost use Rattle.fields_spec.specs.Varint.{varint};

// The number of bytes of the minimal varint of `count`: one, and one more for each limit passed. A loop over counts that sums this
// becomes vector code, which one that looks into the table of lengths does not.
pub fn len_by_limits(count: u32) -> usize
    ensures { result ≡ length (varint count) }
{
    1 + (127 < count) as usize
        + (16383 < count) as usize
        + (2097151 < count) as usize
        + (268435455 < count) as usize
}
