// The owner rule, for C.
ghost use Rattle.std.specs.Prelude.{◌≡◌};
ghost use Rattle.capi_spec.specs.Told.{owner_told};
ghost use Rattle.capi_spec.specs.Calls.{owner_c};

use capi_spec::COwner;
use records_spec::Refusal;

// Whose owner stands in two encodings.
pub fn petasunok_combine_owner_id(ours: &[u8], theirs: &[u8], strategy: u8) -> COwner
    ensures { result ≡ owner_told (owner_c strategy ours.now theirs.now) }
{
    if capi_given::is_strategy(strategy) {
        capi_told::owner_told(flags::choose_owner_id(
            ours,
            theirs,
            capi_given::strategy_given(strategy),
        ))
    } else {
        capi_told::owner_told(Err(Refusal::BadTable))
    }
}
