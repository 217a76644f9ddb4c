// "Activation (001, 12.5 and 12.6)": what a request gets. Nothing here changes anything.
#![tactic(auto)]

ghost use Rattle.std.specs.Prelude.{◌≡◌, ◌<◌, length};
ghost use Rattle.octets.specs.Search.{first_at, count_if};
ghost use Rattle.kinds.specs.declared.Decision.TheVariants.{Ask};
ghost use Rattle.model.specs.Row.{row_at, is_active, active_as, wanted};
ghost use Rattle.model.specs.RuleTest.{is_pending};
ghost use Rattle.model.specs.Line.{by_places, socket_rules, asks, is_silent, all_answered, refusal_of, verdict_by, head_verdict};
ghost use Rattle.table.specs.Layout.{seats, block_size};
ghost use Rattle.table.specs.Block.{farm_of};
ghost use Rattle.decide.specs.SiteSheet.{site_sheet};

use kinds::{Check, Clock, Decision, HeadVerdict, RowState, Site};
use table::SEATS;

// "All codes but 10 close the row." Codes are numbers: the promises speak of any, and a plan reads back any byte.
pub const ACCEPTED: u8 = 0x10;

// ---- what is asked of one row

pub fn is_active(b: &[u8], seat: usize) -> bool
    requires { length b.now ≡ block_size }
    ensures { result ≡ is_active (row_at (farm_of b.now).rows seat) }
{
    matches!(table::row::state_at(b, seat), RowState::Active(_, _))
}

pub fn active_as(b: &[u8], seat: usize, address: u16) -> bool
    requires { length b.now ≡ block_size }
    ensures { result ≡ active_as address (row_at (farm_of b.now).rows seat) }
{
    matches!(table::row::state_at(b, seat), RowState::Active(a, _) if a == address)
}

// The address that a waiting row asks for.
pub fn wanted(b: &[u8], seat: usize) -> u16
    requires { length b.now ≡ block_size }
    ensures { result ≡ wanted (row_at (farm_of b.now).rows seat) }
{
    match table::row::state_at(b, seat) {
        RowState::Waiting(q) => q.address,
        _ => 0,
    }
}

// ---- the socket's rules

// The row on which the address is active.
pub fn holder(b: &[u8], address: u16) -> Option<usize>
    requires { length b.now ≡ block_size }
    ensures { result ≡ first_at (active_as address) 0 (farm_of b.now).rows }
{
    (0..SEATS).find(|seat| active_as(b, *seat, address))
}

// How many rows are active.
pub fn count_active(b: &[u8]) -> usize
    requires { length b.now ≡ block_size }
    ensures { result ≡ count_if is_active (farm_of b.now).rows }
{
    (0..SEATS).filter(|seat| is_active(b, *seat)).count()
}

// "q rows active: a check of all active rows of the farm. - else 10"
#[tactic(auto, unfolding(model::specs::Line::accepted, crate::specs::SiteSheet::site_sheet))]
fn by_places(b: &[u8], site: Site) -> Decision
    requires { length b.now ≡ block_size }
    ensures { result ≡ by_places (site_sheet site) (farm_of b.now).rows }
{
    if octets::wide(site.quota) <= count_active(b) {
        return Decision::Ask(Check::All);
    }
    Decision::Now(ACCEPTED)
}

// "address active on another row of the farm: a check of that row"
#[tactic(auto, unfolding(model::specs::Line::socket_rules))]
pub fn socket_rules(b: &[u8], site: Site, address: u16) -> Decision
    requires { length b.now ≡ block_size }
    ensures { result ≡ socket_rules (site_sheet site) (farm_of b.now).rows address }
{
    match holder(b, address) {
        Some(i) => Decision::Ask(Check::One(i as u8)),
        None => by_places(b, site),
    }
}

// What the row's own request gets.
pub fn rules_for(b: &[u8], site: Site, seat: usize) -> Decision
    requires { length b.now ≡ block_size }
    ensures { result ≡ socket_rules (site_sheet site) (farm_of b.now).rows (wanted (row_at (farm_of b.now).rows seat)) }
{
    let a = wanted(b, seat);
    socket_rules(b, site, a)
}

// ---- checks

pub fn asks(b: &[u8], check: Check, seat: usize) -> bool
    requires { length b.now ≡ block_size }
    ensures { result ≡ asks check seat (row_at (farm_of b.now).rows seat) }
{
    match check {
        Check::One(s) => seat == octets::wide(s),
        Check::All => is_active(b, seat),
    }
}

// An asked row that has not answered.
pub fn is_silent(b: &[u8], check: Check, m: [bool; SEATS], seat: usize) -> bool
    requires { (seat < seats) × (length b.now ≡ block_size) }
    ensures { result ≡ is_silent check m seat (row_at (farm_of b.now).rows seat) }
{
    !m[seat] && asks(b, check, seat)
}

// "all asked rows answered"
pub fn all_answered(b: &[u8], check: Check, m: [bool; SEATS]) -> bool
    requires { length b.now ≡ block_size }
    ensures { result ≡ all_answered check m (farm_of b.now).rows }
{
    (0..SEATS).all(|seat| !is_silent(b, check, m, seat))
}

// "03 (check of that row) or 01 (check of all)"
fn refusal_of(check: Check) -> u8
    ensures { result ≡ refusal_of check }
{
    match check {
        Check::One(_) => 0x03,
        Check::All => 0x01,
    }
}

// "If all asked rows answered: 03 .. or 01 .. If the clock is 50: unanswered asked rows close, then 10."
#[tactic(auto, unfolding(kinds::specs::Clock::check_limit))]
fn check_verdict(b: &[u8], check: Check) -> HeadVerdict
    requires { length b.now ≡ block_size }
    ensures { result ≡ verdict_by (farm_of b.now) (Ask check) }
{
    let m = table::marks::marks_at(b);
    if all_answered(b, check, m) {
        return HeadVerdict::Answer(refusal_of(check));
    }
    let c = table::clock::clock_at(b);
    if Clock::CHECK <= c.ticks {
        return HeadVerdict::RunOut(check);
    }
    HeadVerdict::Pending
}

// "the head is decided afresh; if it needs no check, it has its answer"
#[tactic(auto, unfolding(model::specs::Line::head_verdict))]
pub fn head_verdict(b: &[u8], site: Site, head: usize) -> HeadVerdict
    requires { length b.now ≡ block_size }
    ensures { result ≡ head_verdict (site_sheet site) (farm_of b.now) head }
{
    match rules_for(b, site, head) {
        Decision::Now(code) => HeadVerdict::Answer(code),
        Decision::Ask(check) => check_verdict(b, check),
    }
}

// The head's check goes on.
pub fn is_pending(v: HeadVerdict) -> bool
    ensures { result ≡ is_pending v }
{
    matches!(v, HeadVerdict::Pending)
}
