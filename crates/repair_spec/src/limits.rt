// Limits: how many epochs there are, and the longest flags.
use codec_spec::{LONGEST_RECORD, OWNED_HEAD};

// The last epoch: `last_epoch`, by the proof of `repair::gather`.
pub const LAST_EPOCH: u16 = 65535;

// How many epochs there are: `all_epochs`, by the proof of `repair::repair_multi`.
pub const ALL_EPOCHS: usize = LAST_EPOCH as usize + 1;

// No flags have more bytes: `longest_flags`, by the proof of `migrate::main`.
pub const LONGEST_FLAGS: usize = OWNED_HEAD + LAST_EPOCH as usize * LONGEST_RECORD;
