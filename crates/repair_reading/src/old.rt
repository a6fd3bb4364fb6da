// One record of old flag bytes.
ghost use Rattle.std.specs.Prelude.{◌≡◌, ◌+◌, ◌≤◌, length, take, drop};
ghost use Rattle.fields_spec.specs.Big.{said};
ghost use Rattle.fields_spec.specs.Varint.{found, notCanonical};
ghost use Rattle.repair_spec.specs.Olds.{old_at};
ghost use Rattle.repair_spec.specs.Inner.Steps.{got_old_of};

use crate::padded::{TOO_LARGE, capped_value, end_of};
use fields_spec::VarintFault;
use repair_spec::GotOld;

// Reads the record at `at`, whose varint is complete but not canonical.
fn read_padded(src: &[u8], at: usize, epoch: u16) -> GotOld
    requires at_in_bounds { at + 2 ≤ length src.now }
    requires epoch_value { epoch ≡ said (take 2 (drop at src.now)) }
    requires src_value { found (drop (at + 2) src.now) ≡ notCanonical }
    ensures { result ≡ got_old_of (old_at at (drop at src.now)) }
{
    let next = end_of(src, at + 2);
    let count = capped_value(src, at + 2, next);
    let fits = count < TOO_LARGE;
    if fits {
        GotOld::Fits {
            epoch,
            count: count as u32,
            next,
        }
    } else {
        GotOld::TooLarge { next }
    }
}

// Reads the record at `at`. Its varint is judged and then read: a second caller of `read_varint` would keep that from being compiled into the
// reading of flags, which takes up to twice the time then.
pub fn read_old(src: &[u8], at: usize) -> GotOld
    requires { at ≤ length src.now }
    ensures { result ≡ got_old_of (old_at at (drop at src.now)) }
{
    if src.len() - at < 2 {
        return GotOld::Cut;
    }
    let epoch = fields::be16_at(src, at);
    match fields::judge_varint(src, at + 2) {
        Err(VarintFault::Incomplete(_)) => GotOld::Cut,
        Err(VarintFault::NotCanonical(_)) => read_padded(src, at, epoch),
        Ok(_) => {
            let varint = fields::varint_at(src, at + 2);
            GotOld::Fits {
                epoch,
                count: varint.count,
                next: varint.next,
            }
        }
    }
}
