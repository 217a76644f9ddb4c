// A row as twenty bytes: state, place in the byte stream, the header's bytes, one spare byte that stays 0.
#![tactic(auto)]

ghost use Rattle.std.specs.Prelude.{◌≡◌, ◌∷◌, length};
ghost use Rattle.octets.specs.Numbers.{be32};
ghost use Rattle.octets.specs.Says.{Says};
ghost use Rattle.rowbytes.specs.RowLayout.{row_size, head_size};
ghost use Rattle.rowbytes.specs.RowBytes.{state_bytes, state_image, state_from, place_image, place_from, state_in, row_from, StateOk, PlaceOk, RowOk, Unused};

use kinds::{Clock, Place, Request, Row, RowState};

// Where things stand, as specs/RowLayout.antt has it.
pub const ROW: usize = 20;

pub const TICKS: usize = 4;

pub const PLACE: usize = 6;

pub const HEAD: usize = 11;

const SPARE: usize = 19;

// ---- the state; its tag is a byte of the lent table, where any may stand

fn state_from(tag: u8, kind: u8, address: u16, ticks: u16) -> RowState
    ensures { result ≡ state_from tag kind address ticks }
{
    match tag {
        1 => RowState::Fresh(Clock { ticks }),
        2 => RowState::Waiting(Request { address, kind }),
        3 => RowState::Active(address, Clock { ticks }),
        _ => RowState::Free,
    }
}

#[tactic(auto, unfolding(crate::specs::RowBytes::state_in))]
pub fn read_state(s: &[u8]) -> RowState
    requires { length s.now ≡ row_size }
    ensures { result ≡ state_in s.now }
{
    let address = octets::read16(s, 2);
    let ticks = octets::read16(s, TICKS);
    state_from(s[0], s[1], address, ticks)
}

fn numbered(tag: u8, kind: u8, address: u16, ticks: u16) -> [u8; 6]
    ensures { result ≡ state_bytes tag kind address ticks }
{
    let [address_high, address_low] = address.to_be_bytes();
    let [ticks_high, ticks_low] = ticks.to_be_bytes();
    [tag, kind, address_high, address_low, ticks_high, ticks_low]
}

pub fn state_bytes(state: RowState) -> [u8; 6]
    ensures { result ≡ state_image state }
{
    match state {
        RowState::Free => numbered(0, 0, 0, 0),
        RowState::Fresh(age) => numbered(1, 0, 0, age.ticks),
        RowState::Waiting(q) => numbered(2, q.kind, q.address, 0),
        RowState::Active(address, idle) => numbered(3, 0, address, idle.ticks),
    }
}

// ---- the place in the byte stream

fn place_from(tag: u8, low: u8, count: u32) -> Place
    ensures { result ≡ place_from tag low count }
{
    match tag {
        1 => Place::Reading(count),
        2 => Place::Skipping(count),
        _ => Place::Header(low),
    }
}

fn counted(tag: u8, n: u32) -> [u8; 5]
    ensures { result ≡ tag ∷ be32 n }
{
    let [a, b, c, d] = n.to_be_bytes();
    [tag, a, b, c, d]
}

pub fn place_bytes(place: Place) -> [u8; 5]
    ensures { result ≡ place_image place }
{
    match place {
        Place::Header(n) => [0, 0, 0, 0, n],
        Place::Reading(n) => counted(1, n),
        Place::Skipping(n) => counted(2, n),
    }
}

// ---- the row

fn read_head(s: &[u8]) -> [u8; 8]
    requires { length s.now ≡ head_size }
    ensures { result ≡ s.now }
{
    *s.first_chunk().unwrap_or(&[0; 8])
}

#[tactic(auto, unfolding(crate::specs::RowBytes::row_from))]
pub fn read_row(s: &[u8]) -> Row
    requires { length s.now ≡ row_size }
    ensures { result ≡ row_from s.now }
{
    let count = octets::read32(s, 7);
    Row {
        state: read_state(s),
        place: place_from(s[PLACE], s[10], count),
        head: read_head(&s[HEAD..SPARE]),
    }
}

// ---- the test whether twenty bytes are a row's: by tags and zeros, nothing is laid out again

fn none(kind: u8, address: u16, ticks: u16) -> bool
    ensures { Says result (Unused kind address ticks) }
{
    kind == 0 && address == 0 && ticks == 0
}

fn state_ok(tag: u8, kind: u8, address: u16, ticks: u16) -> bool
    ensures { Says result (StateOk tag kind address ticks) }
{
    match tag {
        0 => none(kind, address, ticks),
        1 => none(kind, address, 0),
        2 => ticks == 0,
        3 => kind == 0,
        _ => false,
    }
}

fn place_ok(tag: u8, low: u8, count: u32) -> bool
    ensures { Says result (PlaceOk tag low count) }
{
    match tag {
        0 => count == u32::from(low),
        1 | 2 => true,
        _ => false,
    }
}

pub fn row_ok(s: &[u8]) -> bool
    requires { length s.now ≡ row_size }
    ensures { Says result (RowOk s.now) }
{
    s[SPARE] == 0
        && state_ok(s[0], s[1], octets::read16(s, 2), octets::read16(s, TICKS))
        && place_ok(s[PLACE], s[10], octets::read32(s, 7))
}
