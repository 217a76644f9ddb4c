// "Response 0006: address, entity address, code, four zeros." What the verdict on a head does.
ghost use Rattle.std.specs.Prelude.{◌<◌};
ghost use Rattle.model.specs.Farm.{and_then, closed_where};
ghost use Rattle.model.specs.Line.{accepted, is_silent, answered};
ghost use Rattle.table.specs.Layout.{seats};
ghost use Rattle.table.specs.Block.{farm_of, Whole};
ghost use Rattle.decide.specs.SiteSheet.{site_sheet};
ghost use Rattle.closing.specs.Did.{RowsFit, Did};
ghost use Rattle.rowwork.specs.Acted.{acted};

use closing::{close, say};
use decide::ACCEPTED;
use kinds::{Check, Clock, HeadVerdict, Reply, RowState, Site};
use plan::Plan;

// "All codes but 10 close the row."
pub fn answer(b: &mut [u8], p: &mut Plan, site: Site, seat: usize, address: u16, code: u8)
    requires { (seat < seats) × RowsFit site × Whole b.old }
    ensures { Did p.old b.new p.new (answered (site_sheet site) seat address code (farm_of b.old)) }
{
    say::say(p, site, seat, Reply::Activation(address, site.entity, code));
    if code == ACCEPTED {
        let c = Clock::fresh();
        table::row::put_row(b, seat, say::row_of(RowState::Active(address, c)));
        return;
    }
    close::close(b, p, site, seat);
}

// "If the clock is 50: unanswered asked rows close, then 10."
fn run_out(b: &mut [u8], p: &mut Plan, site: Site, head: usize, address: u16, check: Check)
    requires { (head < seats) × RowsFit site × Whole b.old }
    ensures { Did p.old b.new p.new (and_then (closed_where (site_sheet site) (is_silent check (farm_of b.old).marks) (farm_of b.old)) (answered (site_sheet site) head address accepted)) }
{
    let m = table::marks::marks_at(b);
    close::close_silent(b, p, site, check, m);
    answer(b, p, site, head, address, ACCEPTED);
}

pub fn act(b: &mut [u8], p: &mut Plan, site: Site, head: usize, address: u16, v: HeadVerdict)
    requires { (head < seats) × RowsFit site × Whole b.old }
    ensures { Did p.old b.new p.new (acted (site_sheet site) head address v (farm_of b.old)) }
{
    match v {
        HeadVerdict::Pending => {}
        HeadVerdict::Answer(code) => answer(b, p, site, head, address, code),
        HeadVerdict::RunOut(check) => run_out(b, p, site, head, address, check),
    }
}
