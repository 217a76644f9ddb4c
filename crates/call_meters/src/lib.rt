// The query of a farm's meters: "taken, finished, lost". It changes nothing and refuses nothing; a slot that the table does not have has
// no meter.
#![tactic(auto)]

ghost use Rattle.std.specs.Prelude.{◌≡◌, List, ℕ, ◌<◌, length};
ghost use Rattle.sheet.specs.Sheet.{most_farms};
ghost use Rattle.model.specs.Table.{slot};
ghost use Rattle.table.specs.Layout.{table_size};
ghost use Rattle.table.specs.Block.{farm_of};
ghost use Rattle.lent.specs.Lent.{block, lent_table};

use kinds::{FarmNo, Meters};
use table::{FARMS, TABLE, block_of};

fn meters_at(t: &[u8], f: FarmNo) -> Meters
    requires { (f.0 < most_farms) × (length t.now ≡ table_size) }
    ensures { result ≡ (farm_of (block t.now f.0)).meters }
{
    table_meters::meters_at(&t[block_of(f)])
}

pub fn meters(t: &[u8; TABLE], f: FarmNo) -> Meters
    ensures { (s m : List ℕ) → result ≡ (slot (lent_table s t.now m) f.0).farm.meters }
{
    if usize::from(f.0) < FARMS {
        return meters_at(t, f);
    }
    Meters::default()
}
