// A row closes: it is free, and the bytes of its unfinished message are lost.
ghost use Rattle.std.specs.Prelude.{◌≡◌, ℕ, ◌<◌, Bool};
ghost use Rattle.kinds.specs.declared.Row.{Row};
ghost use Rattle.model.specs.Row.{in_hand_at, in_hand_by, is_open_state, at_limit_state, is_open, at_limit};
ghost use Rattle.model.specs.Farm.{lost_more, closed, closed_where};
ghost use Rattle.model.specs.Line.{is_silent};
ghost use Rattle.table.specs.Layout.{seats};
ghost use Rattle.table.specs.Block.{farm_of, Whole};
ghost use Rattle.decide.specs.SiteSheet.{site_sheet};
ghost use Rattle.closing.specs.Did.{RowsFit, Did};
ghost use Rattle.closing.specs.Decides.{Decides};

use crate::say;
use kinds::{Check, Clock, Meters, Place, Reply, RowState, Site};
use plan::Plan;
use table::SEATS;

// The bytes of a header.
const HEAD: u32 = 8;

// ---- the meter

fn lost_at(m: Meters, place: Place) -> Meters
    ensures { result ≡ lost_more (in_hand_at place) m }
{
    match place {
        Place::Header(n) => table_meters::lose(m, 0, n as u32),
        Place::Reading(n) | Place::Skipping(n) => table_meters::lose(m, HEAD, n),
    }
}

// "a free row has none"
fn lost_by(m: Meters, state: RowState, place: Place) -> Meters
    ensures { result ≡ lost_more (in_hand_by state place) m }
{
    match state {
        RowState::Free => m,
        RowState::Fresh(_) | RowState::Waiting(_) | RowState::Active(_, _) => lost_at(m, place),
    }
}

// ---- one row

pub fn close(b: &mut [u8], p: &mut Plan, site: Site, i: usize)
    requires { (i < seats) × RowsFit site × Whole b.old }
    ensures { Did p.old b.new p.new (closed (site_sheet site) i (farm_of b.old)) }
{
    let row = table::row::row_at(b, i);
    let state = row.state;
    let place = row.place;
    let m = table_meters::meters_at(b);
    let n = lost_by(m, state, place);
    table::row::put_row(b, i, say::row_of(RowState::Free));
    table_meters::put_meters(b, n);
    say::say(p, site, i, Reply::Close);
}

// ---- all rows that are to close

pub fn is_open(s: RowState) -> bool
    ensures { result ≡ is_open_state s }
{
    !matches!(s, RowState::Free)
}

// "closes it at 200", "closes it at 30,000"
fn at_limit(s: RowState) -> bool
    ensures { result ≡ at_limit_state s }
{
    match s {
        RowState::Free | RowState::Waiting(_) => false,
        RowState::Fresh(age) => Clock::INITIAL <= age.ticks,
        RowState::Active(_, idle) => Clock::GENERAL <= idle.ticks,
    }
}

// "lowest first": each row is asked when its turn comes
fn close_where<F: Fn(&[u8], usize) -> bool>(b: &mut [u8], p: &mut Plan, site: Site, passes: F)
    ghost test: { ℕ → Row → Bool }
    requires { RowsFit site × Whole b.old × Decides F.Fn passes test }
    ensures { Did p.old b.new p.new (closed_where (site_sheet site) test (farm_of b.old)) }
{
    for i in 0..SEATS {
        if passes(b, i) {
            close(b, p, site, i);
        }
    }
}

// "unanswered asked rows close": m are the marks before the first of them closes
pub fn close_silent(b: &mut [u8], p: &mut Plan, site: Site, check: Check, m: [bool; SEATS])
    requires { RowsFit site × Whole b.old }
    ensures { Did p.old b.new p.new (closed_where (site_sheet site) (is_silent check m) (farm_of b.old)) }
{
    close_where(b, p, site, |b, i| decide::is_silent(b, check, m, i));
}

pub fn close_due(b: &mut [u8], p: &mut Plan, site: Site)
    requires { RowsFit site × Whole b.old }
    ensures { Did p.old b.new p.new (closed_where (site_sheet site) (λ (seat : ℕ) (r : Row). at_limit r) (farm_of b.old)) }
{
    close_where(b, p, site, |b, i| at_limit(table::row::state_at(b, i)));
}

pub fn close_open(b: &mut [u8], p: &mut Plan, site: Site)
    requires { RowsFit site × Whole b.old }
    ensures { Did p.old b.new p.new (closed_where (site_sheet site) (λ (seat : ℕ) (r : Row). is_open r) (farm_of b.old)) }
{
    close_where(b, p, site, |b, i| is_open(table::row::state_at(b, i)));
}
