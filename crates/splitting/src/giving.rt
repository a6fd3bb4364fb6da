// What the records give of an amount, from the latest down, and how many of them are asked.
ghost use Rattle.std.specs.Prelude.{◌≡◌, ◌-◌, min, length};
ghost use Rattle.records_spec.specs.Answers.{records_were};
ghost use Rattle.splitting_spec.specs.Sections.{minimum};
ghost use Rattle.splitting_spec.specs.Inner.Visits.{visits};

use splitting_spec::Visited;

// What a record keeps, if it has as much; with so little left it is dropped: `minimum`, by the proof of `gives`.
pub const MINIMUM_NON_BASE_FLAGS_SIZE: u32 = 3;

// What a record with so many bytes gives of what is asked of it: all that it holds above 3, or all that is asked.
pub fn gives(asked: u32, count: u32) -> u32
    ensures { result ≡ min asked (count - minimum) }
{
    asked.min(count.saturating_sub(MINIMUM_NON_BASE_FLAGS_SIZE))
}

// Visits the records from the latest down, while bytes are left. Only their counts are read, and nothing is written.
pub fn visit(epochs: &[u16], counts: &[u32], amount: u32) -> Visited
    requires { length epochs.now ≡ length counts.now }
    ensures { result ≡ visits (records_were epochs.now counts.now) amount }
{
    let mut records = 0;
    let mut left = amount;
    for count in counts.iter().rev() {
        if left == 0 {
            break;
        }
        left -= gives(left, *count);
        records += 1;
    }
    Visited { records, left }
}
