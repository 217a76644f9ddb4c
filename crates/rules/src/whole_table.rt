// The table: a block for each farm that a sheet can have.
ghost use Rattle.std.specs.Prelude.{◌≡◌, ◌<◌, length};
ghost use Rattle.sheet.specs.Rules.{GoodSheet};
ghost use Rattle.sheet.specs.Sheet.{most_farms};
ghost use Rattle.table.specs.Layout.{table_size};
ghost use Rattle.rules.specs.Rules.{slot_keeps, table_keeps};

use crate::block;
use kinds::FarmNo;
use table::{FARMS, block_of};

fn slot_keeps(t: &[u8], s: &[u8], f: usize) -> bool
    requires { (f < most_farms) × (length t.now ≡ table_size) × GoodSheet s.now }
    ensures { result ≡ slot_keeps s.now t.now f }
{
    let farm = FarmNo(f as u8);
    block::block_keeps(&t[block_of(farm)], s, farm)
}

pub fn table_keeps(t: &[u8], s: &[u8]) -> bool
    requires { (length t.now ≡ table_size) × GoodSheet s.now }
    ensures { result ≡ table_keeps s.now t.now }
{
    (0..FARMS).all(|f| slot_keeps(t, s, f))
}
