// "a mark "answered" for each of its at most nine rows, kept by value": passed in, and handed back changed.
ghost use Rattle.std.specs.Prelude.{◌≡◌, true, ◌<◌, length, set};
ghost use Rattle.model.specs.Farm.{with_marks};
ghost use Rattle.model.specs.Line.{is_marked};
ghost use Rattle.table.specs.Layout.{seats, block_size};
ghost use Rattle.table.specs.Block.{farm_of, Whole, Holds};

use crate::{MARKS, SEATS};

pub fn mark(m: [bool; SEATS], seat: usize) -> [bool; SEATS]
    requires { seat < seats }
    ensures { result ≡ set m seat true }
{
    let mut n = m;
    n[seat] = true;
    n
}

// The mark of one row.
pub fn mark_at(b: &[u8], seat: usize) -> bool
    requires { (seat < seats) × (length b.now ≡ block_size) }
    ensures { result ≡ is_marked (farm_of b.now).marks seat }
{
    b[MARKS + seat] == 1
}

pub fn marks_at(b: &[u8]) -> [bool; SEATS]
    requires { length b.now ≡ block_size }
    ensures { result ≡ (farm_of b.now).marks }
{
    std::array::from_fn(|seat| mark_at(b, seat))
}

pub fn put_marks(b: &mut [u8], m: [bool; SEATS])
    requires { Whole b.old }
    ensures { Holds b.new (with_marks (farm_of b.old) m) }
{
    octets::put(b, MARKS, &m.map(u8::from));
}
