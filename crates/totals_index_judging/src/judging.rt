// Judging a change over the table as it stands, row by row, before anything is written.
ghost use Rattle.std.specs.Prelude.{◌≡◌, true, cond, ◌-◌, ◌≤◌, ◌<◌, ◌^◌, length};
ghost use Rattle.records_spec.specs.Answers.{flags_were};
ghost use Rattle.rows_spec.specs.Order.{is_less};
ghost use Rattle.rows_spec.specs.Rows.{row, rows_in, compared};
ghost use Rattle.totals_spec.specs.Table.{total_at};
ghost use Rattle.totals_index_spec.specs.Structs.{columns};
ghost use Rattle.totals_index_spec.specs.Inner.Judging.{one, positives, beginning, unjudged, started, row_of};
ghost use Rattle.totals_index_spec.specs.Inner.Judging.{rows_named, judged_next, judged_all, AskedOf, Asked, Small, TotalsFit};

use records_spec::{Head, OWNER_LENGTH};
use totals::LARGEST_TOTAL;
use totals_index_spec::{Judging, Total};
use totals_spec::Named;

// How many counts are above 0.
fn count_positives(counts: &[u32]) -> usize
    ensures { result ≡ positives counts.now }
{
    counts.iter().filter(|count| 0 < **count).count()
}

// Where the judging of n rows starts, for what the old flags and the new ones name.
fn begin(n: usize, old: Named, new: Named, owed: usize, made: usize) -> Judging
    ensures { result ≡ beginning n old new owed made }
{
    Judging {
        rows: n,
        upto: n,
        old,
        new,
        good: true,
        any: false,
        owner: [0u8; OWNER_LENGTH],
        epoch: 0,
        owed,
        fits: true,
        left: n,
        made,
    }
}

// Where 11 is known already, and no row is looked at.
fn begin_with_none(n: usize) -> Judging
    ensures { result ≡ unjudged n }
{
    let none = Named {
        owner: [0u8; OWNER_LENGTH],
        records: 0,
    };
    let begun = begin(n, none, none, 0, 0);
    Judging {
        upto: 0,
        good: false,
        ..begun
    }
}

// Where the judging of a table of a size starts, by whether it has n places and the flags are proper.
pub fn start(
    n: usize,
    size: usize,
    old_present: bool,
    old_flags: Head,
    old_epochs: &[u16],
    old_counts: &[u32],
    new_present: bool,
    new_flags: Head,
    new_epochs: &[u16],
    new_counts: &[u32],
) -> Judging
    ensures result_value { let old_flags = flags_were old_flags old_epochs.now old_counts.now in
        let new_flags = flags_were new_flags new_epochs.now new_counts.now in
        result ≡ started n size old_present old_flags new_present new_flags }
    ensures small { Small new_counts.now }
{
    if n <= size
        && totals::is_good(old_present, old_flags, old_epochs, old_counts)
        && totals::is_good(new_present, new_flags, new_epochs, new_counts)
    {
        let taken = totals::names_of(old_present, old_flags);
        let added = totals::names_of(new_present, new_flags);
        let owed = count_positives(&old_counts[..taken.records]);
        let made = count_positives(&new_counts[..added.records]);
        begin(n, taken, added, owed, made)
    } else {
        begin_with_none(n)
    }
}

// Whether a row stands behind the last one, if there is one.
fn comes_behind(
    any: bool,
    last_owner: [u8; 32],
    last_epoch: u16,
    owner: [u8; 32],
    epoch: u16,
) -> bool
    ensures { result ≡ cond any (is_less (compared (row last_owner last_epoch 0) (row owner epoch 0))) true }
{
    !any || totals::is_less(&last_owner, last_epoch, &owner, epoch)
}

// One less where something is so, and never less than 0.
fn less_if(n: usize, so: bool) -> usize
    ensures { result ≡ n - one so }
{
    n.saturating_sub(usize::from(so))
}

// The count that named records have at an owner and epoch; 0 where they have none there.
fn count_named(named: Named, epochs: &[u16], counts: &[u32], owner: [u8; 32], epoch: u16) -> u64
    requires { AskedOf named epochs.now counts.now }
    ensures { result ≡ total_at (row owner epoch 0) (rows_named named epochs.now counts.now) }
{
    let n = named.records;
    totals::count_at(named.owner, &epochs[..n], &counts[..n], owner, epoch)
}

// Judges one row more. No early exit: its tests become flags instead of jumps; with `&&` a row takes some 6 % longer.
pub fn judge_row(
    seen: Judging,
    row: Total,
    old_epochs: &[u16],
    old_counts: &[u32],
    new_epochs: &[u16],
    new_counts: &[u32],
) -> Judging
    requires { Asked seen old_epochs.now old_counts.now new_epochs.now new_counts.now }
    ensures judged { let old_rows = rows_named seen.old old_epochs.now old_counts.now in
        let new_rows = rows_named seen.new new_epochs.now new_counts.now in
        result ≡ judged_next old_rows new_rows seen (row_of row) }
    ensures total_fits { row.total < 2 ^ 64 }
{
    let owner = row.owner;
    let old_count = count_named(seen.old, old_epochs, old_counts, owner, row.epoch);
    let new_count = count_named(seen.new, new_epochs, new_counts, owner, row.epoch);
    let left = row.total.saturating_sub(old_count);
    Judging {
        good: seen.good
            & comes_behind(seen.any, seen.owner, seen.epoch, owner, row.epoch)
            & (0 < row.total),
        any: true,
        owner,
        epoch: row.epoch,
        owed: less_if(seen.owed, (0 < old_count) & (old_count <= row.total)),
        fits: seen.fits & (new_count <= LARGEST_TOTAL - left),
        left: less_if(seen.left, (0 < old_count) & (row.total == old_count)),
        made: less_if(seen.made, (0 < new_count) & (0 < left)),
        ..seen
    }
}

// How many rows are to be judged: none where 11 is known already.
pub fn rows_to_judge(start: Judging) -> usize
    ensures { result ≡ start.upto }
{
    start.upto
}

// Judges the first n rows of a table, beyond what was seen of it.
pub fn judge_rows(
    table: &[Total],
    n: usize,
    mut seen: Judging,
    old_epochs: &[u16],
    old_counts: &[u32],
    new_epochs: &[u16],
    new_counts: &[u32],
) -> Judging
    requires { (n ≤ length table.now) × Asked seen old_epochs.now old_counts.now new_epochs.now new_counts.now }
    ensures judged { let old_rows = rows_named seen.old old_epochs.now old_counts.now in
        let new_rows = rows_named seen.new new_epochs.now new_counts.now in
        result ≡ judged_all old_rows new_rows seen (rows_in n (columns table.now)) }
    ensures totals_fit { TotalsFit n table.now }
{
    for row in &table[..n] {
        seen = judge_row(seen, *row, old_epochs, old_counts, new_epochs, new_counts);
    }
    seen
}
