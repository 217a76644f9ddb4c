// The rows of a block: each read as a value, and stored with its records or its ticks alone.
ghost use Rattle.std.specs.Prelude.{◌≡◌, ◌<◌, ◌+◌, ◌*◌, length};
ghost use Rattle.model.specs.Row.{free_row, row_at};
ghost use Rattle.model.specs.Farm.{with_row};
ghost use Rattle.rowbytes.specs.RowLayout.{row_size};
ghost use Rattle.table.specs.Layout.{seats, rows_at, block_size};
ghost use Rattle.rowbytes.specs.RowBytes.{ticked};
ghost use Rattle.table.specs.Block.{farm_of, Whole, Holds};

use crate::{ROWS, SEATS};
use kinds::{Place, Row, RowState};
use rowbytes::{HEAD, PLACE, ROW, TICKS};
use std::ops::Range;

// Where a row stands in its block.
fn row_range(i: usize) -> Range<usize>
    requires { i < seats }
    ensures { (result.start ≡ rows_at + i * row_size) × (result.end ≡ rows_at + i * row_size + row_size) }
{
    let a = ROWS + i * ROW;
    a..a + ROW
}

fn free_row() -> Row
    ensures { result ≡ free_row }
{
    Row {
        state: RowState::Free,
        place: Place::Header(0),
        head: [0; 8],
    }
}

// A seat past the last has no row: it reads as a free one.
pub fn row_at(b: &[u8], i: usize) -> Row
    requires { length b.now ≡ block_size }
    ensures { result ≡ row_at (farm_of b.now).rows i }
{
    if i < SEATS {
        return rowbytes::read_row(&b[row_range(i)]);
    }
    free_row()
}

// The state alone, for those who ask nothing else.
pub fn state_at(b: &[u8], i: usize) -> RowState
    requires { length b.now ≡ block_size }
    ensures { result ≡ (row_at (farm_of b.now).rows i).state }
{
    if i < SEATS {
        return rowbytes::read_state(&b[row_range(i)]);
    }
    RowState::Free
}

pub fn put_row(b: &mut [u8], i: usize, row: Row)
    requires { (i < seats) × Whole b.old }
    ensures { Holds b.new (with_row (farm_of b.old) i row) }
{
    let at = row_range(i).start;
    octets::put(b, at, &rowbytes::state_bytes(row.state));
    octets::put(b, at + PLACE, &rowbytes::place_bytes(row.place));
    octets::put(b, at + HEAD, &row.head);
}

// The ticks alone: two bytes of the row. A row that has no ticks stays as it is.
pub fn put_ticks(b: &mut [u8], i: usize, n: u16)
    requires { (i < seats) × Whole b.old }
    ensures { Holds b.new (with_row (farm_of b.old) i (ticked n (row_at (farm_of b.old).rows i))) }
{
    match state_at(b, i) {
        RowState::Free | RowState::Waiting(_) => {}
        RowState::Fresh(_) | RowState::Active(_, _) => {
            octets::write16(b, row_range(i).start + TICKS, n);
        }
    }
}
