// Rows that close from outside: their peer has closed, or the farm's link is lost.
ghost use Rattle.std.specs.Prelude.{◌<◌};
ghost use Rattle.model.specs.Move.{peer_gone, link_gone};
ghost use Rattle.table.specs.Layout.{seats};
ghost use Rattle.table.specs.Block.{farm_of, Whole};
ghost use Rattle.decide.specs.SiteSheet.{site_sheet};
ghost use Rattle.closing.specs.Did.{RowsFit, Seated, Did};

use closing::close;
use kinds::Site;
use line::settle;
use plan::Plan;

// "Peer closed gives one close for that row."
pub fn peer_closed(b: &mut [u8], p: &mut Plan, site: Site, seat: usize)
    requires { (seat < seats) × Seated (farm_of b.old).line × RowsFit site × Whole b.old }
    ensures { Did p.old b.new p.new (peer_gone (site_sheet site) seat (farm_of b.old)) }
{
    close::close(b, p, site, seat);
    line_join::leave_line(b, p, site, seat);
    settle::settle(b, p, site);
}

// "Link lost: one close per open row, lowest first." Every row is closed, so the line is empty.
pub fn link_lost(b: &mut [u8], p: &mut Plan, site: Site)
    requires { RowsFit site × Whole b.old }
    ensures { Did p.old b.new p.new (link_gone (site_sheet site) (farm_of b.old)) }
{
    close::close_open(b, p, site);
    table_line::clear_line(b);
    alive::clear(b);
}
