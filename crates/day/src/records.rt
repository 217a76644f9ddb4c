// The records of a day's file. Their meaning stands in specs/Records.antt, a definition for each row of the format's table.
ghost use Rattle.std.specs.Prelude.{◌≡◌, ◌-◌, ◌≤◌, length};
ghost use Rattle.day.specs.Records.{fixed_of_call, fixed_of, none_in, only_in, first_in, controller_in, rooms_in, damage_in, record_of, record_in};
ghost use Rattle.day.specs.Next.{next_at, Among, Lies};

use kinds::{FarmNo, RowNo};

// A call with its fields. The bytes that some end in are not held here: they are the record's last, after its fixed fields.
#[derive(Clone, Copy)]
pub enum Call {
    Start,
    Connect(FarmNo),
    Bytes(RowNo),
    Closed(RowNo),
    Lost(FarmNo),
    Tick,
    Datagram(FarmNo),
    // controller, tester
    Controller(FarmNo, u16, u16),
}

// A record: a call as the host made it, or what is lent to the calls that follow.
#[derive(Clone, Copy)]
pub enum Record {
    Made(Call),
    Sheet,
    // output, assembling
    Rooms(u32, u32),
    // place
    Damage(u16),
}

// A record whose bytes are all there: the bytes that it ends in start at rest, and the next record at next.
#[derive(Clone, Copy)]
pub struct Whole {
    pub record: Record,
    pub rest: usize,
    pub next: usize,
}

// Why no record is read.
#[derive(Clone, Copy)]
pub enum Unread {
    // Not all of it is there.
    Cut,
    // "A record with a bad length, an unknown kind or a wrong number of fields".
    Bad,
}

// "A record is a u16 n (1 to 32,767)".
const LEAST: usize = 1;

const MOST: usize = 32767;

// "each at most 65,536".
const MOST_ROOM: u32 = 65536;

// How many bytes the fixed fields take.
fn call_size(c: Call) -> usize
    ensures { result ≡ fixed_of_call c }
{
    match c {
        Call::Start | Call::Tick => 0,
        Call::Connect(_) | Call::Bytes(_) | Call::Closed(_) | Call::Lost(_) | Call::Datagram(_) =>
            1,
        Call::Controller(..) => 5,
    }
}

fn fixed_size(r: Record) -> usize
    ensures { result ≡ fixed_of r }
{
    match r {
        Record::Made(c) => call_size(c),
        Record::Sheet => 0,
        Record::Rooms(..) => 8,
        Record::Damage(_) => 2,
    }
}

// No field.
fn none_in(f: &[u8]) -> Option<()>
    ensures { result ≡ none_in f.now }
{
    f.is_empty().then_some(())
}

// The one field of one byte.
fn only_in(f: &[u8]) -> Option<u8>
    ensures { result ≡ only_in f.now }
{
    match f {
        [b] => Some(*b),
        _ => None,
    }
}

// A field of one byte, and perhaps bytes.
fn first_in(f: &[u8]) -> Option<u8>
    ensures { result ≡ first_in f.now }
{
    f.first().copied()
}

fn controller_in(f: &[u8]) -> Option<Record>
    ensures is { result ≡ controller_in f.now }
    ensures among { Among result (length f.now) }
{
    if f.len() < 5 {
        return None;
    }
    let controller = octets::read16(f, 1);
    let tester = octets::read16(f, 3);
    Some(Record::Made(Call::Controller(FarmNo(f[0]), controller, tester)))
}

#[tactic(auto, unfolding(crate::specs::Records::rooms_of))]
fn rooms_in(f: &[u8]) -> Option<Record>
    ensures is { result ≡ rooms_in f.now }
    ensures among { Among result (length f.now) }
{
    if f.len() != 8 {
        return None;
    }
    let output = octets::read32(f, 0);
    let assembling = octets::read32(f, 4);
    if MOST_ROOM < output || MOST_ROOM < assembling {
        return None;
    }
    Some(Record::Rooms(output, assembling))
}

fn damage_in(f: &[u8]) -> Option<Record>
    ensures is { result ≡ damage_in f.now }
    ensures among { Among result (length f.now) }
{
    if f.len() < 2 {
        return None;
    }
    Some(Record::Damage(octets::read16(f, 0)))
}

// The kind byte says which fields follow.
#[tactic(auto, unfolding(crate::specs::Records::record_of))]
fn record_of(kind: u8, f: &[u8]) -> Option<Record>
    ensures is { result ≡ record_of kind f.now }
    ensures among { Among result (length f.now) }
{
    match kind {
        0 => Some(Record::Sheet),
        1 => none_in(f).map(|_| Record::Made(Call::Start)),
        2 => only_in(f).map(|farm| Record::Made(Call::Connect(FarmNo(farm)))),
        3 => first_in(f).map(|row| Record::Made(Call::Bytes(RowNo(row)))),
        4 => only_in(f).map(|row| Record::Made(Call::Closed(RowNo(row)))),
        5 => only_in(f).map(|farm| Record::Made(Call::Lost(FarmNo(farm)))),
        6 => none_in(f).map(|_| Record::Made(Call::Tick)),
        7 => first_in(f).map(|farm| Record::Made(Call::Datagram(FarmNo(farm)))),
        8 => controller_in(f),
        9 => rooms_in(f),
        10 => damage_in(f),
        _ => None,
    }
}

// "a kind byte, then its fields, and no byte more": b is the record without its length.
fn record_in(b: &[u8]) -> Option<Record>
    requires { 1 ≤ length b.now }
    ensures is { result ≡ record_in b.now }
    ensures among { Among result (length b.now - 1) }
{
    record_of(b[0], &b[1..])
}

// A length that is bad is bad as soon as its two bytes are there.
#[tactic(auto, unfolding(crate::specs::Next::next_of))]
pub fn next_at(s: &[u8], at: usize) -> Result<Whole, Unread>
    requires { at ≤ length s.now }
    ensures { (result ≡ next_at s.now at) × Lies result at (length s.now) }
{
    if s.len() - at < 2 {
        return Err(Unread::Cut);
    }
    let n = octets::read16(s, at) as usize;
    if n < LEAST || MOST < n {
        return Err(Unread::Bad);
    }
    let start = at + 2;
    if s.len() - start < n {
        return Err(Unread::Cut);
    }
    let next = start + n;
    let record = record_in(&s[start..next]).ok_or(Unread::Bad)?;
    let rest = start + 1 + fixed_size(record);
    Ok(Whole { record, rest, next })
}
