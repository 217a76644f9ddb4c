// One row, at its seat: all that is asked of it.
#![tactic(auto)]

ghost use Rattle.std.specs.Prelude.{◌≡◌, ◌<◌, ltb, length};
ghost use Rattle.sheet.specs.Rules.{GoodSheet};
ghost use Rattle.table.specs.Layout.{seats, block_size};
ghost use Rattle.table.specs.Block.{farm_of};
ghost use Rattle.row_tests.specs.Tester.{tester_in};
ghost use Rattle.row_rules.specs.Seat.{rule_sheet, free_keeps, fresh_keeps, waiting_keeps, active_keeps, state_keeps, seat_test};

use kinds::{Clock, FarmNo, Place, Request, RowState, Site};

// What is asked about: a seat of a farm's block, under a good sheet by which the farm has so many rows.
#[derive(Clone, Copy)]
struct Seat<'a> {
    block: &'a [u8],
    sheet: &'a [u8],
    farm: FarmNo,
    rows: usize,
    seat: usize,
    ghost full: { length block.now ≡ block_size },
    ghost good: { GoodSheet sheet.now },
    ghost within: { seat < seats },
}

// ---- by the row's state

impl Seat<'_> {
    // "a row beyond the sheet's rows is open"
    fn is_owned(self) -> bool
        ensures { result ≡ ltb self.entry.seat self.entry.rows }
    {
        self.seat < self.rows
    }

    fn free_keeps(self, place: Place) -> bool
        ensures { result ≡ free_keeps (farm_of self.entry.block.now) self.entry.seat place }
    {
        place_rules::is_boundary(place) && row_tests::times_in(self.block, self.seat) == 0
    }

    // "an age is 200 or more"
    #[tactic(auto, unfolding(kinds::specs::Clock::initial_limit))]
    fn fresh_keeps(self, age: Clock) -> bool
        ensures { result ≡ fresh_keeps self.entry.rows (farm_of self.entry.block.now) self.entry.seat age }
    {
        self.is_owned()
            && age.ticks < Clock::INITIAL
            && row_tests::times_in(self.block, self.seat) == 0
    }

    // "a waiting row has bytes in hand, or its request would get 00 or 06"
    fn waiting_keeps(self, place: Place, q: Request) -> bool
        ensures { result ≡ waiting_keeps (tester_in self.entry.sheet.now self.entry.farm.0) self.entry.rows (farm_of self.entry.block.now) self.entry.seat place q }
    {
        self.is_owned()
            && place_rules::is_boundary(place)
            && q.kind <= 1
            && row_tests::times_in(self.block, self.seat) == 1
            && row_tests::is_tester(self.sheet, self.farm, q.address)
    }

    // "an active address isn't that farm's tester or is active twice", "an idle count 30,000 or more"
    #[tactic(auto, unfolding(kinds::specs::Clock::general_limit))]
    fn active_keeps(self, address: u16, idle: Clock) -> bool
        ensures { result ≡ active_keeps (tester_in self.entry.sheet.now self.entry.farm.0) self.entry.rows (farm_of self.entry.block.now) self.entry.seat address idle }
    {
        self.is_owned()
            && idle.ticks < Clock::GENERAL
            && row_tests::times_in(self.block, self.seat) == 0
            && row_tests::is_tester(self.sheet, self.farm, address)
            && !row_tests::again_after(self.block, self.seat, address)
    }

    fn state_keeps(self, place: Place, state: RowState) -> bool
        ensures { result ≡ state_keeps (tester_in self.entry.sheet.now self.entry.farm.0) self.entry.rows (farm_of self.entry.block.now) self.entry.seat place state }
    {
        match state {
            RowState::Free => self.free_keeps(place),
            RowState::Fresh(age) => self.fresh_keeps(age),
            RowState::Waiting(q) => self.waiting_keeps(place, q),
            RowState::Active(address, idle) => self.active_keeps(address, idle),
        }
    }
}

// ---- the seat

#[tactic(auto, using(crate::proofs::FarmLaws::asked_carried), unfolding(crate::specs::Seat::seat_test, crate::specs::Seat::rule_sheet))]
pub fn seat_keeps(b: &[u8], s: &[u8], f: FarmNo, site: Site, rows: usize, i: usize) -> bool
    requires { (i < seats) × (length b.now ≡ block_size) × GoodSheet s.now }
    ensures { result ≡ seat_test (rule_sheet s.now f.0 site rows) (farm_of b.now) i }
{
    let row = table::row::row_at(b, i);
    let seat = Seat {
        block: b,
        sheet: s,
        farm: f,
        rows,
        seat: i,
    };
    place_rules::possible(row.place, row.head)
        && place_rules::tidy(row.place, row.head)
        && row_tests::mark_keeps(b, site, i)
        && seat.state_keeps(row.place, row.state)
}
