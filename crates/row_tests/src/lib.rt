// What rule 4 asks of one row, each question by itself.
#![tactic(auto)]

ghost use Rattle.std.specs.Prelude.{◌≡◌, not, ◌+◌, ◌<◌, length, drop};
ghost use Rattle.octets.specs.Choice.{either};
ghost use Rattle.octets.specs.Search.{some};
ghost use Rattle.sheet.specs.Rules.{GoodSheet};
ghost use Rattle.model.specs.Row.{active_as};
ghost use Rattle.model.specs.Line.{is_marked, is_asked};
ghost use Rattle.model.specs.Rule.{times};
ghost use Rattle.table.specs.Layout.{seats, block_size};
ghost use Rattle.table.specs.Block.{farm_of};
ghost use Rattle.decide.specs.SiteSheet.{site_sheet};
ghost use Rattle.row_tests.specs.Tester.{tester_in};

use kinds::{FarmNo, Site};
use sheet::find;
use table::SEATS;

// "an active address isn't that farm's tester"
pub fn is_tester(s: &[u8], f: FarmNo, address: u16) -> bool
    requires { GoodSheet s.now }
    ensures { result ≡ tester_in s.now f.0 address }
{
    find::find_tester(s, address).is_some_and(|k| k.farm == f)
}

// How often a seat stands in the line.
pub fn times_in(b: &[u8], i: usize) -> usize
    requires { length b.now ≡ block_size }
    ensures { result ≡ times i (farm_of b.now).line }
{
    (0..table_line::waiting(b))
        .filter(|k| i == table_line::seat_at(b, *k))
        .count()
}

// "or is active twice": on a row after this one
pub fn again_after(b: &[u8], i: usize, address: u16) -> bool
    requires { (i < seats) × (length b.now ≡ block_size) }
    ensures { result ≡ some (active_as address) (drop (i + 1) (farm_of b.now).rows) }
{
    (i + 1..SEATS).any(|k| decide::active_as(b, k, address))
}

// "a mark stands on a row not asked": looked at only where one stands
pub fn mark_keeps(b: &[u8], site: Site, i: usize) -> bool
    requires { (i < seats) × (length b.now ≡ block_size) }
    ensures { result ≡ either (not (is_marked (farm_of b.now).marks i)) (is_asked (site_sheet site) (farm_of b.now) i) }
{
    !table::marks::mark_at(b, i) || line_join::is_asked(b, site, i)
}
