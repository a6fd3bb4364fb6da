// One record of flag bytes.
ghost use Rattle.std.specs.Prelude.{◌≡◌, ◌≤◌, length, drop};
ghost use Rattle.codec_spec.specs.Reading.{fault_at, next};
ghost use Rattle.codec_spec.specs.Inner.Blocks.{got_of};

use codec_spec::{Fault, GotRecord};
use fields_spec::VarintFault;
use records_spec::Refusal;

// A refusal at a place.
pub fn fault(refusal: Refusal, place: usize) -> Fault
    ensures { result ≡ fault_at refusal place }
{
    Fault { refusal, place }
}

// Reads the record at `at`, whose epoch has to be above `prev`.
pub fn read_record(src: &[u8], at: usize, prev: u16) -> Result<GotRecord, Fault>
    requires { at ≤ length src.now }
    ensures { result ≡ got_of at (next prev (drop at src.now)) }
{
    if src.len() - at < 2 {
        return Err(fault(Refusal::WrongSize, at));
    }
    let epoch = fields::be16_at(src, at);
    match fields::read_varint(src, at + 2) {
        Err(VarintFault::Incomplete(_)) => Err(fault(Refusal::WrongSize, at)),
        Err(VarintFault::NotCanonical(_)) => Err(fault(Refusal::NonCanonical, at)),
        Ok(_) if epoch <= prev => Err(fault(Refusal::NonCanonical, at)),
        Ok(varint) => Ok(GotRecord {
            epoch,
            count: varint.count,
            next: varint.next,
        }),
    }
}
