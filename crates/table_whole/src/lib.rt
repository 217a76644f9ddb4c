// Whether a block's bytes are those of a farm: by tags and zeros, nothing is laid out again. Any bytes of meters and clock are.
#![tactic(auto)]

ghost use Rattle.std.specs.Prelude.{◌≡◌, length};
ghost use Rattle.octets.specs.Says.{Says};
ghost use Rattle.table.specs.Layout.{block_size};
ghost use Rattle.table.specs.Block.{Whole, LineOk, MarksOk, RowsOk};

use rowbytes::ROW;
use table::{BLOCK, CLOCK, FIRST_SEAT, LINE, MARKS, ROWS, SEATS};

fn line_ok(b: &[u8]) -> bool
    requires { length b.now ≡ block_size }
    ensures { Says result (LineOk b.now) }
{
    let n = octets::wide(b[LINE]);
    n <= SEATS && b[FIRST_SEAT + n..CLOCK].iter().all(|seat| *seat == 0)
}

fn marks_ok(b: &[u8]) -> bool
    requires { length b.now ≡ block_size }
    ensures { Says result (MarksOk b.now) }
{
    b[MARKS..ROWS].iter().all(|mark| *mark <= 1)
}

fn rows_ok(b: &[u8]) -> bool
    requires { length b.now ≡ block_size }
    ensures { Says result (RowsOk b.now) }
{
    b[ROWS..].chunks_exact(ROW).all(rowbytes::row_ok)
}

pub fn is_whole(b: &[u8]) -> bool
    ensures { Says result (Whole b.now) }
{
    b.len() == BLOCK && line_ok(b) && marks_ok(b) && rows_ok(b)
}
