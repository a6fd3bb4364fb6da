// The places in a head, and its sizes. Each is the definition of its name in specs/Bytes, by what `codec_judging::base_in` and `head_size` ensure.
use records_spec::OWNER_LENGTH;

// Where what is behind the kind's byte stands: the owner, or the base where there is none.
pub const BEHIND_KIND: usize = 1;

// Where what is behind the owner stands: the base.
pub const BEHIND_OWNER: usize = BEHIND_KIND + OWNER_LENGTH;

// The bytes of a head without an owner.
pub const UNOWNED_HEAD: usize = 3;

// The bytes of a head with an owner.
pub const OWNED_HEAD: usize = UNOWNED_HEAD + OWNER_LENGTH;
