// What a bytes call leaves of a row's state and of the farm's meters, and how much of the row's room is handed on.
#![tactic(auto)]

ghost use Rattle.std.specs.Prelude.{◌≡◌, []};
ghost use Rattle.model.specs.Row.{no_head, heard_state};
ghost use Rattle.model.specs.Stream.{stream_of, over_at, ended_by};
ghost use Rattle.model.specs.Farm.{took_more, finished_more};
ghost use Rattle.stream.specs.Took.{event_of};
ghost use Rattle.farm_heard.specs.Heard.{idle_after, stored_long, payload_long};

use kinds::{Clock, Event, Meters, Place, RowState};

// The bytes of a header.
const HEAD: u32 = 8;

// A meter counts modulo this.
const METER: usize = 4294967296;

// ---- the row

// "An active row's idle count goes to 0 with each call that takes a byte from it": one that takes none leaves it.
fn idle_after(count: usize, idle: Clock) -> Clock
    ensures { result ≡ idle_after count idle }
{
    if count == 0 {
        return idle;
    }
    Clock::fresh()
}

pub fn heard_state(count: usize, state: RowState) -> RowState
    ensures { result ≡ heard_state count state }
{
    match state {
        RowState::Active(a, idle) => RowState::Active(a, idle_after(count, idle)),
        RowState::Free | RowState::Fresh(_) | RowState::Waiting(_) => state,
    }
}

// ---- the meters

// "taken (bytes taken)". A count may be more than a meter holds: only the meter wraps.
pub fn took(m: Meters, count: usize) -> Meters
    ensures { result ≡ took_more count m }
{
    table_meters::took(m, 0, (count % METER) as u32)
}

// "8 for a header that closes"; a header whose payload is skipped is not finished yet.
fn over(m: Meters, place: Place) -> Meters
    ensures { result ≡ finished_more (over_at place) m }
{
    match place {
        Place::Header(_) => table_meters::ended(m, HEAD, 0),
        Place::Reading(_) | Place::Skipping(_) => m,
    }
}

// "finished (8 plus payload for each message wholly read or skipped; 8 for a header that closes)"
pub fn ended(m: Meters, event: Event, place: Place) -> Meters
    ensures { result ≡ finished_more (ended_by (event_of event) (stream_of place no_head [])) m }
{
    match event {
        Event::InputEnded => m,
        Event::Wrong(_) => over(m, place),
        Event::Finished(_, size) | Event::Skipped(size) => table_meters::ended(m, HEAD, size),
    }
}

// ---- the payload

// What is read and dropped is not stored: of such a message nothing is handed on.
fn stored(kind: u16, size: u32) -> usize
    ensures { result ≡ stored_long kind size }
{
    if stream::is_stored(kind) {
        return size as usize;
    }
    0
}

pub fn payload_long(event: Event) -> usize
    ensures { result ≡ payload_long (event_of event) }
{
    match event {
        Event::Finished(kind, size) => stored(kind, size),
        Event::InputEnded | Event::Wrong(_) | Event::Skipped(_) => 0,
    }
}
