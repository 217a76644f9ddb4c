// What ended a bytes call, and what that brings about. "0000, 0004, 8002 and 8003 are read and dropped."
ghost use Rattle.std.specs.Prelude.{◌≡◌, ◌<◌, length, take};
ghost use Rattle.wire.specs.Header.{most_payload};
ghost use Rattle.model.specs.FarmSheet.{farm_sheet};
ghost use Rattle.model.specs.Bytes.{messaged, event_done};
ghost use Rattle.table.specs.Layout.{seats};
ghost use Rattle.table.specs.Block.{farm_of, Whole};
ghost use Rattle.closing.specs.Did.{Did};
ghost use Rattle.site.specs.Site.{Sited};
ghost use Rattle.stream.specs.Took.{event_of};
ghost use Rattle.messages.specs.Length.{RightLength, EndsWell};

use crate::fault;
use kinds::{Event, FarmNo, Site};
use plan::Plan;

// By the message's type.
pub fn message(
    b: &mut [u8],
    p: &mut Plan,
    room: &[u8],
    s: &[u8],
    f: FarmNo,
    site: Site,
    seat: usize,
    kind: u16,
    size: u32,
)
    requires { (seat < seats) × (length (farm_of b.old).line < seats) × (length room.now ≡ most_payload) × RightLength kind size × Sited s.now f.0 site × Whole b.old }
    ensures { Did p.old b.new p.new (messaged (farm_sheet s.now f.0) seat kind (take size room.now) (farm_of b.old)) }
{
    let payload = &room[..size as usize];
    match kind {
        0x0005 => request::request(b, p, s, f, site, seat, payload::request_of(payload)),
        0x0008 => line_join::mark_row(b, site, seat, payload::address_of(payload)),
        0x8001 => diagnostic::diagnose(b, p, s, f, site, seat, payload::ends_of(payload)),
        _ => {}
    }
}

// By what ended the call: "the input ends, a header is judged wrong, or one message is finished".
pub fn event(
    b: &mut [u8],
    p: &mut Plan,
    room: &[u8],
    s: &[u8],
    f: FarmNo,
    site: Site,
    seat: usize,
    e: Event,
)
    requires { (seat < seats) × (length (farm_of b.old).line < seats) × (length room.now ≡ most_payload) × EndsWell (event_of e) × Sited s.now f.0 site × Whole b.old }
    ensures { Did p.old b.new p.new (event_done (farm_sheet s.now f.0) seat (event_of e) room.now (farm_of b.old)) }
{
    match e {
        Event::InputEnded => {}
        Event::Wrong(fault) => fault::fault(b, p, site, seat, fault),
        Event::Finished(kind, size) => message(b, p, room, s, f, site, seat, kind, size),
        Event::Skipped(_) => {}
    }
}
