// A farm's three numbers, read off the sheet: its first row, its quota, its entity address.
#![tactic(auto)]

ghost use Rattle.std.specs.Prelude.{◌<◌};
ghost use Rattle.sheet.specs.Sheet.{farm_count};
ghost use Rattle.sheet.specs.Rules.{GoodSheet};
ghost use Rattle.site.specs.Site.{Sited};

use kinds::{FarmNo, Site};
use sheet::{farms, rows};

pub fn site_of(s: &[u8], f: FarmNo) -> Site
    requires { (GoodSheet s.now) × (f.0 < farm_count s.now) }
    ensures { Sited s.now f.0 result }
{
    // A good sheet's rows are few enough for a byte.
    let first = rows::first_row(s, f) as u8;
    let quota = farms::quota(s, f);
    let entity = farms::entity(s, f);
    Site {
        first,
        quota,
        entity,
    }
}
