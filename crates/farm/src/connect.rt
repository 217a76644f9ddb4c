// "Connect opens the lowest free row of the farm, so freed rows are used again."
ghost use Rattle.std.specs.Prelude.{◌≡◌, ◌<◌, ◌≤◌, length, take};
ghost use Rattle.octets.specs.Search.{first_at};
ghost use Rattle.model.specs.Row.{is_free, fresh_row};
ghost use Rattle.model.specs.Farm.{with_row};
ghost use Rattle.table.specs.Layout.{seats, block_size};
ghost use Rattle.table.specs.Block.{farm_of, Whole, Holds};
ghost use Rattle.farm.specs.Connected.{Connected};

use closing::say;
use kinds::{Clock, RowState};

// The lowest free row of the farm's own, of which there are so many.
fn free_row(b: &[u8], rows: usize) -> Option<usize>
    requires { (rows ≤ seats) × (length b.now ≡ block_size) }
    ensures { result ≡ first_at is_free 0 (take rows (farm_of b.now).rows) }
{
    (0..rows).find(|seat| farm_ask::is_free(b, *seat))
}

// "A fresh row's age counts from connect"
fn open_row(b: &mut [u8], seat: usize)
    requires { (seat < seats) × Whole b.old }
    ensures { Holds b.new (with_row (farm_of b.old) seat fresh_row) }
{
    table::row::put_row(b, seat, say::row_of(RowState::Fresh(Clock::fresh())));
}

// Refusal 8 is where this finds nothing.
pub fn connect(b: &mut [u8], rows: usize) -> Option<usize>
    requires { (rows ≤ seats) × Whole b.old }
    ensures { Connected rows b.old b.new result }
{
    let seat = free_row(b, rows)?;
    open_row(b, seat);
    Some(seat)
}
