// Repairing old flag bytes, for C.
ghost use Rattle.std.specs.Prelude.{◌≡◌};
ghost use Rattle.repair_spec.specs.Calls.{repaired_into, repair_was, repair_left};
ghost use Rattle.records_spec.specs.Outcomes.{after};
ghost use Rattle.capi_spec.specs.Told.{repair_answer, told_as};

use capi_spec::CRepaired;

// Writes canonical bytes for old ones, and lists the changes with their offsets.
#[unsafe(no_mangle)]
pub extern "C" fn petasunok_repair(
    src: &[u8],
    out: &mut [u8],
    offsets: &mut [usize],
    changes: &mut [u8],
) -> CRepaired
    ensures { after result (repair_left out.new offsets.new changes.new) ≡ told_as repair_answer (repaired_into src.now (repair_was out.old offsets.old changes.old)) }
{
    capi::petasunok_repair(src, out, offsets, changes)
}
