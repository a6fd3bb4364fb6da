// Moving rows inside the table.
ghost use Rattle.std.specs.Prelude.{◌≡◌, ◌+◌, ◌-◌, ◌≤◌};
ghost use Rattle.rows_spec.specs.Rows.{tables, Room, rows_were, rows_left};
ghost use Rattle.totals_spec.specs.Inner.Steps.{moved};

// Moves the rows from one place up to another to the place `to`, where they may stand already.
pub fn move_rows(
    owners: &mut [[u8; 32]],
    epochs: &mut [u16],
    totals: &mut [u64],
    from: usize,
    upto: usize,
    to: usize,
)
    requires from_le_upto { from ≤ upto }
    requires room { Room upto (tables owners.old epochs.old totals.old) }
    requires room_there { Room (to + (upto - from)) (tables owners.old epochs.old totals.old) }
    ensures { rows_left owners.new epochs.new totals.new ≡ moved from upto to (rows_were owners.old epochs.old totals.old) }
{
    if to != from {
        owners.copy_within(from..upto, to);
        epochs.copy_within(from..upto, to);
        totals.copy_within(from..upto, to);
    }
}
