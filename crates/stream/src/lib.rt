// What a bytes call takes of its input on one row, a run of bytes at a time. "A bytes call takes bytes until the input ends, a header is
// judged wrong, or one message is finished, and says how many it took."
#![tactic(auto)]

ghost use Rattle.std.specs.Prelude.{◌≡◌, List, ℕ, ◌+◌, ◌≤◌, ◌<◌, ◌^◌, min, length, drop};
ghost use Rattle.kinds.specs.declared.Place.TheVariants.{Header, Reading, Skipping};
ghost use Rattle.wire.specs.Header.{header_at, verdict_of, most_payload};
ghost use Rattle.model.specs.Rule.{PossibleAt};
ghost use Rattle.model.specs.Stream.{is_stored, stream_of, taken, wrong, judged, after_wrong, takes};
ghost use Rattle.stream.specs.Took.{taken_of, Takes, kept_run, between, later_by, takes_after};

use kinds::{Event, Fault, Place};

// "Eight bytes: version, inverse, type u16, payload length u32."
const HEADER_SIZE: usize = 8;

// How many bytes were taken, what ended the call, and where the row's stream is then. The payload is in the row's room.
#[derive(Clone, Copy)]
pub struct Took {
    pub count: usize,
    pub event: Event,
    pub place: Place,
    pub head: [u8; 8],
}

// Between two messages again.
#[tactic(auto, unfolding(model::specs::Row::no_head))]
fn rested(count: usize, event: Event) -> Took
    ensures { result ≡ between count event }
{
    Took {
        count,
        event,
        place: Place::Header(0),
        head: [0; 8],
    }
}

// So many bytes were taken before.
fn later(count: usize, t: Took) -> Took
    requires { count + t.count < 2 ^ 64 }
    ensures { result ≡ later_by count t }
{
    Took {
        count: count + t.count,
        ..t
    }
}

// "a 0005, 0008 or 8001"
pub fn is_stored(kind: u16) -> bool
    ensures { result ≡ is_stored kind }
{
    matches!(kind, 0x0005 | 0x0008 | 0x8001)
}

// "stored at its place in its row's 2,048; nothing else there ever changes"
fn store(kind: u16, room: &mut [u8], at: usize, bytes: &[u8])
    requires { at + length bytes.now ≤ length room.old }
    ensures { room.new ≡ kept_run (is_stored kind) room.old at bytes.now }
{
    if is_stored(kind) {
        octets::put(room, at, bytes);
    }
}

// A payload whose header passed: all of the input, or what is left of the payload, and then the message is finished.
fn take_reading(n: u32, head: [u8; 8], room: &mut [u8], input: &[u8]) -> Took
    requires { (length room.old ≡ most_payload) × PossibleAt (Reading n) head }
    ensures { taken_of result room.new ≡ takes (stream_of (Reading n) head room.old) input.now }
{
    let h = wire::header::read(&head, 0);
    let left = (h.length - n) as usize;
    let k = left.min(input.len());
    store(h.kind, room, n as usize, &input[..k]);
    if left <= k {
        return rested(k, Event::Finished(h.kind, h.length));
    }
    Took {
        count: k,
        event: Event::InputEnded,
        place: Place::Reading(n + k as u32),
        head,
    }
}

// A payload that is skipped, likewise. The room is not lent: what is skipped is not stored. So the two are no one function: of a call
// without a room the contract says more, that whatever the room holds stays.
fn take_skipping(n: u32, head: [u8; 8], input: &[u8]) -> Took
    requires { PossibleAt (Skipping n) head }
    ensures { (room : List ℕ) → taken_of result room ≡ takes (stream_of (Skipping n) head room) input.now }
{
    let h = wire::header::read(&head, 0);
    let left = (h.length - n) as usize;
    let k = left.min(input.len());
    if left <= k {
        return rested(k, Event::Skipped(h.length));
    }
    Took {
        count: k,
        event: Event::InputEnded,
        place: Place::Skipping(n + k as u32),
        head,
    }
}

// A header judged wrong closes the row, or its payload is skipped; where there is none to skip, its message is over.
fn after_wrong(count: usize, f: Fault, head: [u8; 8]) -> Took
    ensures { (room : List ℕ) → taken_of result room ≡ taken count (wrong f) (after_wrong f head room) }
{
    let over = rested(count, Event::Wrong(f));
    if wire::header::closes_row(f) || wire::header::read(&head, 0).length == 0 {
        return over;
    }
    Took {
        place: Place::Skipping(0),
        head,
        ..over
    }
}

// "Judged when all eight are in": k bytes of the input went into them. A header that passes goes on with its payload in the same call; any
// wrong one ends it.
fn after_eighth(head: [u8; 8], room: &mut [u8], input: &[u8], k: usize) -> Took
    requires { (length room.old ≡ most_payload) × (k ≤ length input.now) }
    ensures { taken_of result room.new ≡ takes_after k (judged (verdict_of (header_at head 0)) head room.old) (λ t. takes t (drop k input.now)) }
{
    match wire::header::judge(wire::header::read(&head, 0)) {
        Ok(()) => later(k, take_reading(0, head, room, &input[k..])),
        Err(f) => after_wrong(k, f, head),
    }
}

// Header bytes: all of the input, or what is left of the eight, and then the header is judged.
fn take_header(n: u8, head: [u8; 8], room: &mut [u8], input: &[u8]) -> Took
    requires { (length room.old ≡ most_payload) × PossibleAt (Header n) head }
    ensures { taken_of result room.new ≡ takes (stream_of (Header n) head room.old) input.now }
{
    let at = n as usize;
    let left = HEADER_SIZE - at;
    let k = left.min(input.len());
    let mut filled = head;
    octets::put(&mut filled, at, &input[..k]);
    if left <= k {
        return after_eighth(filled, room, input, k);
    }
    Took {
        count: k,
        event: Event::InputEnded,
        place: Place::Header((at + k) as u8),
        head: filled,
    }
}

// What a bytes call takes of its input, and where the row's stream is then: as the machine of single bytes has it.
pub fn take(place: Place, head: [u8; 8], room: &mut [u8], input: &[u8]) -> Took
    requires { (length room.old ≡ most_payload) × PossibleAt place head }
    ensures { Takes result room.new (takes (stream_of place head room.old) input.now) }
{
    match place {
        Place::Header(n) => take_header(n, head, room, input),
        Place::Reading(n) => take_reading(n, head, room, input),
        Place::Skipping(n) => take_skipping(n, head, input),
    }
}
