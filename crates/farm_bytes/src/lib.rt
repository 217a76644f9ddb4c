// A bytes call of one farm: what is taken of the input, what ended it, and the line settled.
#![tactic(auto)]

ghost use Rattle.std.specs.Prelude.{◌≡◌, false, List, ℕ, ◌<◌, length};
ghost use Rattle.wire.specs.Header.{most_payload};
ghost use Rattle.model.specs.FarmSheet.{farm_sheet};
ghost use Rattle.model.specs.Row.{row_at, is_waiting};
ghost use Rattle.model.specs.Bytes.{heard, taken_by};
ghost use Rattle.model.specs.Rule.{Good};
ghost use Rattle.table.specs.Layout.{seats};
ghost use Rattle.table.specs.Block.{farm_of, Whole, Holds};
ghost use Rattle.site.specs.Site.{Sited};
ghost use Rattle.stream.specs.Took.{taken_of};
ghost use Rattle.farm_bytes.specs.Bytes.{BytesDid};

use kinds::{FarmNo, Row, Site};
use line::settle;
use messages::message;
use plan::Plan;
use stream::Took;

// How many bytes were taken, and how many bytes of the row's room are the payload of the message that is finished.
#[derive(Clone, Copy)]
pub struct Heard {
    pub count: usize,
    pub long: usize,
}

// ---- the row

// The row with its new place, and the meters. The room is not looked at.
fn hear(b: &mut [u8], seat: usize, t: Took)
    requires { (seat < seats) × Whole b.old }
    ensures { (room : List ℕ) → Holds b.new (heard seat (taken_of t room) (farm_of b.old)) }
{
    let event = t.event;
    let place = t.place;
    let head = t.head;
    let state = farm_heard::heard_state(t.count, table::row::state_at(b, seat));
    let m = farm_heard::took(table_meters::meters_at(b), t.count);
    table::row::put_row(b, seat, Row { state, place, head });
    table_meters::put_meters(b, farm_heard::ended(m, event, place));
}

// ---- the call

pub fn bytes(
    b: &mut [u8],
    p: &mut Plan,
    room: &mut [u8],
    s: &[u8],
    f: FarmNo,
    site: Site,
    seat: usize,
    input: &[u8],
) -> Heard
    requires { (seat < seats) × (length room.old ≡ most_payload) × Sited s.now f.0 site × Good (farm_sheet s.now f.0) (farm_of b.old) × (is_waiting (row_at (farm_of b.old).rows seat) ≡ false) × Whole b.old }
    ensures { BytesDid result (farm_sheet s.now f.0) seat (taken_by seat room.old input.now (farm_of b.old)) (farm_of b.old) p.old b.new p.new room.new }
{
    let row = table::row::row_at(b, seat);
    let place = row.place;
    let head = row.head;
    let t = stream::take(place, head, room, input);
    hear(b, seat, t);
    let event = t.event;
    message::event(b, p, room, s, f, site, seat, event);
    settle::settle(b, p, site);
    Heard {
        count: t.count,
        long: farm_heard::payload_long(event),
    }
}
