// One farm's block: its bytes are those of a farm, and the farm keeps the rules.
ghost use Rattle.std.specs.Prelude.{◌≡◌, ltb, length};
ghost use Rattle.octets.specs.Choice.{both};
ghost use Rattle.octets.specs.Search.{all};
ghost use Rattle.sheet.specs.Rules.{GoodSheet};
ghost use Rattle.model.specs.FarmSheet.{slot_sheet};
ghost use Rattle.model.specs.RuleTest.{every_seat, head_keeps, seat_keeps, good_farm};
ghost use Rattle.table.specs.Layout.{seats, block_size};
ghost use Rattle.table.specs.Block.{farm_of, whole_block};
ghost use Rattle.decide.specs.SiteSheet.{site_sheet};
ghost use Rattle.row_rules.specs.Seat.{rule_sheet};

use kinds::{Clock, FarmNo, Site};
use sheet::farms;
use table::SEATS;

fn seats_keep(b: &[u8], s: &[u8], f: FarmNo, site: Site, rows: usize) -> bool
    requires { (length b.now ≡ block_size) × GoodSheet s.now }
    ensures { result ≡ every_seat (seat_keeps (rule_sheet s.now f.0 site rows) (farm_of b.now)) }
{
    (0..SEATS).all(|i| row_rules::seat_keeps(b, s, f, site, rows, i))
}

// Who waits has a seat.
fn line_seated(b: &[u8]) -> bool
    requires { length b.now ≡ block_size }
    ensures { result ≡ all (λ x. ltb x seats) (farm_of b.now).line }
{
    (0..table_line::waiting(b)).all(|k| table_line::seat_at(b, k) < SEATS)
}

// "a non-empty line's head needs no check or its check is already decided"; "an empty line has clock .. set"
fn head_keeps(b: &[u8], site: Site) -> bool
    requires { length b.now ≡ block_size }
    ensures { result ≡ head_keeps (site_sheet site) (farm_of b.now) (farm_of b.now).line }
{
    let Some(head) = table_line::head(b) else {
        return table::clock::clock_at(b).ticks == 0;
    };
    decide::is_pending(decide::head_verdict(b, site, head))
}

// The farm's rules, of a farm with these three numbers and so many rows.
#[tactic(auto, using(crate::proofs::Sizes::long), unfolding(model::specs::RuleTest::good_farm, model::specs::Farm::seat_count, row_rules::specs::Seat::rule_sheet, kinds::specs::Clock::check_limit))]
fn farm_keeps(b: &[u8], s: &[u8], f: FarmNo, site: Site, rows: usize) -> bool
    requires { (length b.now ≡ block_size) × GoodSheet s.now }
    ensures { result ≡ good_farm (rule_sheet s.now f.0 site rows) (farm_of b.now) }
{
    seats_keep(b, s, f, site, rows)
        && decide::count_active(b) <= octets::wide(site.quota)
        && line_seated(b)
        && head_keeps(b, site)
        && table::clock::clock_at(b).ticks < Clock::CHECK
}

// A slot beyond the sheet's farms owns no row.
pub fn block_keeps(b: &[u8], s: &[u8], f: FarmNo) -> bool
    requires { (length b.now ≡ block_size) × GoodSheet s.now }
    ensures { result ≡ both (whole_block b.now) (good_farm (slot_sheet s.now f.0) (farm_of b.now)) }
{
    if !table_whole::is_whole(b) {
        return false;
    }
    if farms::has_farm(s, f) {
        let own = site::site_of(s, f);
        let rows = octets::wide(own.quota) + 1;
        return farm_keeps(b, s, f, own, rows);
    }
    let none = Site {
        first: 0,
        quota: 0,
        entity: 0,
    };
    farm_keeps(b, s, f, none, 0)
}
