// Rows that close from outside, on the table and with the output sheet.
ghost use Rattle.std.specs.Prelude.{◌≡◌, ◌<◌, ◌≤◌, length};
ghost use Rattle.sheet.specs.Sheet.{most_farms};
ghost use Rattle.model.specs.FarmSheet.{farm_sheet};
ghost use Rattle.model.specs.Move.{peer_gone, link_gone};
ghost use Rattle.outsheet.specs.Contracts.{least_output};
ghost use Rattle.table.specs.Layout.{seats, table_size};
ghost use Rattle.table.specs.Block.{farm_of, Whole};
ghost use Rattle.decide.specs.SiteSheet.{site_sheet};
ghost use Rattle.closing.specs.Did.{RowsFit, Seated};
ghost use Rattle.lent.specs.Lent.{block};
ghost use Rattle.serve.specs.Ready.{Ready};
ghost use Rattle.serve.specs.Moved.{DidAt, Moved};

use kinds::{FarmNo, Site};
use lent::Answer;
use plan::Plan;
use table::block_of;

// The farm's block is lent alone.
fn peer_closed_at(t: &mut [u8], p: &mut Plan, f: FarmNo, site: Site, seat: usize)
    requires { (f.0 < most_farms) × (length t.old ≡ table_size) × (seat < seats) × Seated (farm_of (block t.old f.0)).line × RowsFit site × Whole (block t.old f.0) }
    ensures { DidAt f.0 (peer_gone (site_sheet site) seat (farm_of (block t.old f.0))) p.old t.old p.new t.new }
{
    farm::closed::peer_closed(&mut t[block_of(f)], p, site, seat);
}

fn link_lost_at(t: &mut [u8], p: &mut Plan, f: FarmNo, site: Site)
    requires { (f.0 < most_farms) × (length t.old ≡ table_size) × RowsFit site × Whole (block t.old f.0) }
    ensures { DidAt f.0 (link_gone (site_sheet site) (farm_of (block t.old f.0))) p.old t.old p.new t.new }
{
    farm::closed::link_lost(&mut t[block_of(f)], p, site);
}

pub fn close_row(s: &[u8], t: &mut [u8], out: &mut [u8], f: FarmNo, seat: usize) -> Answer
    requires { (seat < seats) × Ready s.now t.old f.0 × (least_output ≤ length out.old) }
    ensures { Moved f.0 (peer_gone (farm_sheet s.now f.0) seat (farm_of (block t.old f.0))) t.old out.old t.new out.new result }
{
    let site = site::site_of(s, f);
    let mut p = Plan::new();
    peer_closed_at(t, &mut p, f, site, seat);
    finish::finish_short(out, &p, finish::NO_ROW)
}

pub fn close_farm(s: &[u8], t: &mut [u8], out: &mut [u8], f: FarmNo) -> Answer
    requires { Ready s.now t.old f.0 × (least_output ≤ length out.old) }
    ensures { Moved f.0 (link_gone (farm_sheet s.now f.0) (farm_of (block t.old f.0))) t.old out.old t.new out.new result }
{
    let site = site::site_of(s, f);
    let mut p = Plan::new();
    link_lost_at(t, &mut p, f, site);
    finish::finish_short(out, &p, finish::NO_ROW)
}
