// One farm's block of the lent table: decoded to values where it is read, laid out where it is stored. Only this crate, table_meters,
// table_line and table_whole know a place of it.
#![tactic(auto)]

ghost use Rattle.std.specs.Prelude.{◌≡◌, ◌<◌, ◌+◌, ◌*◌};
ghost use Rattle.sheet.specs.Sheet.{most_farms};
ghost use Rattle.table.specs.Layout.{block_size};

pub mod clock; // clock.rt: the check clock
pub mod marks; // marks.rt: who answered
pub mod row; // row.rt: the rows

use kinds::FarmNo;
use rowbytes::ROW;
use std::ops::Range;

// Where things stand, as specs/Layout.antt has it. A farm's functions are lent BLOCK bytes.
pub const SEATS: usize = 9;

pub const BLOCK: usize = ROWS + SEATS * ROW;

// "farms 1 to 4": the table has a block for each.
pub const FARMS: usize = 4;

pub const TABLE: usize = FARMS * BLOCK;

pub const METERS: usize = 0;

pub const LINE: usize = 12;

pub const FIRST_SEAT: usize = 13;

pub const CLOCK: usize = 22;

pub const MARKS: usize = 24;

pub const ROWS: usize = 33;

// Where a farm's block stands in the table: what serves the farm is lent these bytes alone.
pub fn block_of(f: FarmNo) -> Range<usize>
    requires { f.0 < most_farms }
    ensures { (result.start ≡ f.0 * block_size) × (result.end ≡ f.0 * block_size + block_size) }
{
    let a = f.0 as usize * BLOCK;
    a..a + BLOCK
}
