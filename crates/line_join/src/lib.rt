// Joining the line, leaving it, and the marks of the running check.
#![tactic(auto)]

ghost use Rattle.std.specs.Prelude.{◌≡◌, ◌<◌, length};
ghost use Rattle.model.specs.Line.{joined, left, is_asked, marked};
ghost use Rattle.table.specs.Layout.{seats, block_size};
ghost use Rattle.table.specs.Block.{farm_of, Whole, Holds};
ghost use Rattle.decide.specs.SiteSheet.{site_sheet};
ghost use Rattle.closing.specs.Did.{RowsFit, Did};

use closing::say;
use kinds::{Decision, Request, RowState, Site};
use plan::Plan;

// "A request that needs a check joins the end of its farm's line, the head being place 1; only the head's check runs."
pub fn join_line(b: &mut [u8], p: &mut Plan, site: Site, seat: usize, q: Request)
    requires { (seat < seats) × (length (farm_of b.old).line < seats) × RowsFit site × Whole b.old }
    ensures { Did p.old b.new p.new (joined (site_sheet site) seat q (farm_of b.old)) }
{
    let n = table_line::waiting(b);
    table::row::put_row(b, seat, say::row_of(RowState::Waiting(q)));
    table_line::join(b, seat);
    if n == 0 {
        alive::start(b, p, site);
    }
}

// "A waiter whose row closes leaves the line; if it was the head, the next is head."
pub fn leave_line(b: &mut [u8], p: &mut Plan, site: Site, seat: usize)
    requires { RowsFit site × Whole b.old }
    ensures { Did p.old b.new p.new (left (site_sheet site) seat (farm_of b.old)) }
{
    let Some(head) = table_line::head(b) else {
        return;
    };
    if seat == head {
        alive::advance(b, p, site);
        return;
    }
    table_line::leave(b, seat);
}

// The running check has asked the row.
pub fn is_asked(b: &[u8], site: Site, seat: usize) -> bool
    requires { length b.now ≡ block_size }
    ensures { result ≡ is_asked (site_sheet site) (farm_of b.now) seat }
{
    let Some(head) = table_line::head(b) else {
        return false;
    };
    let d = decide::rules_for(b, site, head);
    match d {
        Decision::Now(_) => false,
        Decision::Ask(check) => decide::asks(b, check, seat),
    }
}

// "0008 with the row's own address from an asked row marks it; any other 0008 is dropped."
pub fn mark_row(b: &mut [u8], site: Site, seat: usize, address: u16)
    requires { (seat < seats) × Whole b.old }
    ensures { Holds b.new (marked (site_sheet site) seat address (farm_of b.old)) }
{
    if !decide::active_as(b, seat, address) {
        return;
    }
    if !is_asked(b, site, seat) {
        return;
    }
    let m = table::marks::marks_at(b);
    table::marks::put_marks(b, table::marks::mark(m, seat));
}
