// Connect, on the table.
ghost use Rattle.std.specs.Prelude.{◌≡◌, ◌<◌, ◌≤◌, length};
ghost use Rattle.sheet.specs.Sheet.{most_farms};
ghost use Rattle.table.specs.Layout.{seats, table_size};
ghost use Rattle.table.specs.Block.{Whole};
ghost use Rattle.lent.specs.Lent.{block};
ghost use Rattle.serve.specs.Moved.{ConnectedAt};

use kinds::FarmNo;
use table::block_of;

// The farm's block is lent alone.
pub fn connect_at(t: &mut [u8], f: FarmNo, rows: usize) -> Option<usize>
    requires { (f.0 < most_farms) × (length t.old ≡ table_size) × (rows ≤ seats) × Whole (block t.old f.0) }
    ensures { ConnectedAt f.0 rows t.old t.new result }
{
    farm::connect::connect(&mut t[block_of(f)], rows)
}
