// Room for records.
ghost use Rattle.std.specs.Prelude.{◌≡◌};
ghost use Rattle.records_spec.specs.Answers.{room_for};

// Whether n records have room in both tables.
pub fn fit(n: usize, epochs_len: usize, counts_len: usize) -> bool
    ensures { result ≡ room_for n epochs_len counts_len }
{
    n <= epochs_len && n <= counts_len
}
