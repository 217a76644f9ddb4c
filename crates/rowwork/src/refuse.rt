// An answer that may close the row: its entry, then the close.
ghost use Rattle.std.specs.Prelude.{◌<◌};
ghost use Rattle.table.specs.Layout.{seats};
ghost use Rattle.table.specs.Block.{farm_of, Whole};
ghost use Rattle.decide.specs.SiteSheet.{site_sheet};
ghost use Rattle.closing.specs.Did.{RowsFit, Did};
ghost use Rattle.rowwork.specs.Refused.{refused_by};

use closing::{close, say};
use kinds::{Reply, Site};
use plan::Plan;

pub fn refuse(b: &mut [u8], p: &mut Plan, site: Site, seat: usize, reply: Reply, closes: bool)
    requires { (seat < seats) × RowsFit site × Whole b.old }
    ensures { Did p.old b.new p.new (refused_by (site_sheet site) seat reply closes (farm_of b.old)) }
{
    say::say(p, site, seat, reply);
    if closes {
        close::close(b, p, site, seat);
    }
}
