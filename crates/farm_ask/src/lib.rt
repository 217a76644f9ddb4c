// What the calls ask of a farm's rows. Nothing here changes anything.
#![tactic(auto)]

ghost use Rattle.std.specs.Prelude.{◌≡◌, length};
ghost use Rattle.model.specs.Row.{row_at, is_free, is_open, is_waiting};
ghost use Rattle.model.specs.Move.{open_rows};
ghost use Rattle.table.specs.Layout.{block_size};
ghost use Rattle.table.specs.Block.{farm_of};

use closing::close;
use kinds::RowState;
use table::SEATS;

pub fn is_free(b: &[u8], seat: usize) -> bool
    requires { length b.now ≡ block_size }
    ensures { result ≡ is_free (row_at (farm_of b.now).rows seat) }
{
    matches!(table::row::state_at(b, seat), RowState::Free)
}

// Refusal 6 is where this says no.
pub fn is_open(b: &[u8], seat: usize) -> bool
    requires { length b.now ≡ block_size }
    ensures { result ≡ is_open (row_at (farm_of b.now).rows seat) }
{
    close::is_open(table::row::state_at(b, seat))
}

// Refusal 7, of an open row, is where this says yes.
pub fn is_waiting(b: &[u8], seat: usize) -> bool
    requires { length b.now ≡ block_size }
    ensures { result ≡ is_waiting (row_at (farm_of b.now).rows seat) }
{
    matches!(table::row::state_at(b, seat), RowState::Waiting(_))
}

// "open rows of the farm"
pub fn open_rows(b: &[u8]) -> usize
    requires { length b.now ≡ block_size }
    ensures { result ≡ open_rows (farm_of b.now) }
{
    (0..SEATS).filter(|seat| is_open(b, *seat)).count()
}
