// Why bytes are refused, and where.
use records_spec::Refusal;

// A refusal, with the place of its fault.
#[derive(Clone, Copy, Debug, PartialEq, Eq)]
pub struct Fault {
    pub refusal: Refusal,
    pub place: usize,
}
