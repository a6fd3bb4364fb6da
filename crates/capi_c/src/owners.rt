// The owner rule, for C.
ghost use Rattle.std.specs.Prelude.{◌≡◌};
ghost use Rattle.capi_spec.specs.Told.{owner_told};
ghost use Rattle.capi_spec.specs.Calls.{owner_c};

use capi_spec::COwner;

// Whose owner stands in two encodings.
#[unsafe(no_mangle)]
pub extern "C" fn petasunok_combine_owner_id(ours: &[u8], theirs: &[u8], strategy: u8) -> COwner
    ensures { result ≡ owner_told (owner_c strategy ours.now theirs.now) }
{
    capi::petasunok_combine_owner_id(ours, theirs, strategy)
}
