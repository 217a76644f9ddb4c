// An entry on one of the farm's rows, and the rows that an answer leaves.
ghost use Rattle.std.specs.Prelude.{◌≡◌, ◌<◌};
ghost use Rattle.model.specs.Row.{row_of};
ghost use Rattle.model.specs.Farm.{says};
ghost use Rattle.plan.specs.Plan.{pushed_to};
ghost use Rattle.table.specs.Layout.{seats};
ghost use Rattle.decide.specs.SiteSheet.{site_sheet};
ghost use Rattle.closing.specs.Did.{RowsFit};

use kinds::{Item, Place, Reply, Row, RowNo, RowState, Site};
use plan::Plan;

// The version that we speak.
pub const VERSION: u8 = 3;

pub fn say(p: &mut Plan, site: Site, seat: usize, reply: Reply)
    requires { (seat < seats) × RowsFit site }
    ensures { p.new ≡ pushed_to p.old (says (site_sheet site) seat reply) }
{
    let n = octets::wide(site.first) + seat;
    let row = RowNo(n as u8);
    p.push(Item {
        row,
        version: VERSION,
        reply,
    });
}

// A row between two messages.
pub fn row_of(state: RowState) -> Row
    ensures { result ≡ row_of state }
{
    let none = [0; 8];
    Row {
        state: state,
        place: Place::Header(0),
        head: none,
    }
}
