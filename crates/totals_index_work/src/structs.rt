// A table of structs, taken apart into three columns and put together from them.
ghost use Rattle.std.specs.Prelude.{◌≡◌, ◌≤◌, length};
ghost use Rattle.records_spec.specs.Tables.{over};
ghost use Rattle.rows_spec.specs.Rows.{tables, rows_in, over_rows, Room, rows_were, rows_left};
ghost use Rattle.totals_index_spec.specs.Structs.{columns, structs};

use totals_index_spec::Total;

// Copies the first n rows of the table to the start of three columns.
pub fn take_apart(
    table: &[Total],
    n: usize,
    owners: &mut [[u8; 32]],
    epochs: &mut [u16],
    totals: &mut [u64],
)
    requires { (n ≤ length table.now) × Room n (tables owners.old epochs.old totals.old) }
    ensures { rows_left owners.new epochs.new totals.new ≡ over_rows (rows_in n (columns table.now)) (rows_were owners.old epochs.old totals.old) }
{
    for (i, row) in table[..n].iter().enumerate() {
        let owner = row.owner;
        owners[i] = owner;
        epochs[i] = row.epoch;
        totals[i] = row.total;
    }
}

// Copies the first n rows of three columns to the start of the table.
pub fn put_together(
    table: &mut [Total],
    n: usize,
    owners: &[[u8; 32]],
    epochs: &[u16],
    totals: &[u64],
)
    requires { (n ≤ length table.old) × Room n (tables owners.now epochs.now totals.now) }
    ensures { table.new ≡ over (structs (rows_in n (rows_were owners.now epochs.now totals.now))) table.old }
{
    for i in 0..n {
        table[i] = Total {
            owner: owners[i],
            epoch: epochs[i],
            total: totals[i],
        };
    }
}
