// The numbers of changes.
ghost use Rattle.std.specs.Prelude.{◌≡◌};
ghost use Rattle.repair_spec.specs.Changes.{change_number};

use repair_spec::Change;

// The change's number, 1 to 7.
pub fn change_number(change: Change) -> u8
    ensures { result ≡ change_number change }
{
    match change {
        Change::ReEncoded => 1,
        Change::TooLarge => 2,
        Change::NotAboveBase => 3,
        Change::Replaced => 4,
        Change::TailCut => 5,
        Change::Moved => 6,
        Change::KindChanged => 7,
    }
}
