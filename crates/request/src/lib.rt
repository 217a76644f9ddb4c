// 0005, a request for activation (001, 12.5 and 12.6): decided in document 01's order, then answered at once or put in the line.
#![tactic(auto)]

ghost use Rattle.std.specs.Prelude.{◌≡◌, ◌<◌, length};
ghost use Rattle.model.specs.FarmSheet.{farm_sheet};
ghost use Rattle.model.specs.Row.{row_at};
ghost use Rattle.model.specs.Line.{by_state, decide};
ghost use Rattle.model.specs.Bytes.{decided_by, requested};
ghost use Rattle.table.specs.Layout.{seats, block_size};
ghost use Rattle.table.specs.Block.{farm_of, Whole};
ghost use Rattle.decide.specs.SiteSheet.{site_sheet};
ghost use Rattle.closing.specs.Did.{RowsFit, Did};
ghost use Rattle.site.specs.Site.{Sited};
ghost use Rattle.request.specs.Again.{again_code};

use kinds::{Decision, FarmNo, Request, RowState, Site};
use plan::Plan;
use rowwork::answer;
use sheet::find;

// "00: not a tester of this farm. 06: type other than 00 or 01.", and 02 for another address on an active row. Numbers, as decide::ACCEPTED
// is.
const NO_TESTER: u8 = 0x00;

const OTHER_ADDRESS: u8 = 0x02;

const WRONG_TYPE: u8 = 0x06;

// "row already active: 10 if the same address, else 02"
fn again(active: u16, address: u16) -> u8
    ensures { result ≡ again_code active address }
{
    if active == address {
        return decide::ACCEPTED;
    }
    OTHER_ADDRESS
}

// What the row's state leaves of the order.
fn by_state(b: &[u8], site: Site, seat: usize, address: u16) -> Decision
    requires { length b.now ≡ block_size }
    ensures { result ≡ by_state (site_sheet site) (farm_of b.now).rows address (row_at (farm_of b.now).rows seat).state }
{
    match table::row::state_at(b, seat) {
        RowState::Active(a, _) => Decision::Now(again(a, address)),
        RowState::Free | RowState::Fresh(_) | RowState::Waiting(_) => decide::socket_rules(
            b, site, address,
        ),
    }
}

// "Decided in this order"
fn decision(b: &[u8], s: &[u8], f: FarmNo, site: Site, seat: usize, q: Request) -> Decision
    requires { Sited s.now f.0 site × (length b.now ≡ block_size) }
    ensures { result ≡ decide (farm_sheet s.now f.0) (farm_of b.now).rows seat q }
{
    let Some(k) = find::find_tester(s, q.address) else {
        return Decision::Now(NO_TESTER); // nobody's
    };
    let ours = k.farm == f;
    let right_type = q.kind <= 1;
    if !ours {
        return Decision::Now(NO_TESTER); // another farm's
    }
    if !right_type {
        return Decision::Now(WRONG_TYPE);
    }
    by_state(b, site, seat, q.address)
}

// "A request that needs a check joins the end of its farm's line"
fn carry_out(b: &mut [u8], p: &mut Plan, site: Site, seat: usize, q: Request, d: Decision)
    requires { (seat < seats) × (length (farm_of b.old).line < seats) × RowsFit site × Whole b.old }
    ensures { Did p.old b.new p.new (decided_by (site_sheet site) seat q d (farm_of b.old)) }
{
    match d {
        Decision::Now(code) => answer::answer(b, p, site, seat, q.address, code),
        Decision::Ask(_) => line_join::join_line(b, p, site, seat, q),
    }
}

pub fn request(b: &mut [u8], p: &mut Plan, s: &[u8], f: FarmNo, site: Site, seat: usize, q: Request)
    requires { (seat < seats) × (length (farm_of b.old).line < seats) × Sited s.now f.0 site × Whole b.old }
    ensures { Did p.old b.new p.new (requested (farm_sheet s.now f.0) seat q (farm_of b.old)) }
{
    let d = decision(b, s, f, site, seat, q);
    carry_out(b, p, site, seat, q, d);
}
