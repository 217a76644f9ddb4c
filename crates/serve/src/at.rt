// What a call asks of the farm that it is for: its block is lent alone.
ghost use Rattle.std.specs.Prelude.{◌≡◌, ◌<◌, length};
ghost use Rattle.sheet.specs.Sheet.{most_farms};
ghost use Rattle.model.specs.Row.{row_at, is_open, is_waiting};
ghost use Rattle.model.specs.Move.{open_rows};
ghost use Rattle.table.specs.Layout.{table_size};
ghost use Rattle.table.specs.Block.{farm_of};
ghost use Rattle.lent.specs.Lent.{block};

use kinds::FarmNo;
use table::block_of;

// Refusal 6 is where this says no. The next asks another thing in the same line: one function told which to ask would be longer.
pub fn is_open(t: &[u8], f: FarmNo, seat: usize) -> bool
    requires { (f.0 < most_farms) × (length t.now ≡ table_size) }
    ensures { result ≡ is_open (row_at (farm_of (block t.now f.0)).rows seat) }
{
    farm_ask::is_open(&t[block_of(f)], seat)
}

// Refusal 7, of an open row, is where this says yes.
pub fn is_waiting(t: &[u8], f: FarmNo, seat: usize) -> bool
    requires { (f.0 < most_farms) × (length t.now ≡ table_size) }
    ensures { result ≡ is_waiting (row_at (farm_of (block t.now f.0)).rows seat) }
{
    farm_ask::is_waiting(&t[block_of(f)], seat)
}

// "open rows of the farm"
pub fn open_rows(t: &[u8], f: FarmNo) -> usize
    requires { (f.0 < most_farms) × (length t.now ≡ table_size) }
    ensures { result ≡ open_rows (farm_of (block t.now f.0)) }
{
    farm_ask::open_rows(&t[block_of(f)])
}
