// The lines of a call's entries.
#![tactic(auto, using(crate::proofs::MessageLaws::said), unfolding(crate::specs::Entries::to_text, crate::specs::Entries::plain_text, crate::specs::Entries::what_text))]

ghost use Rattle.std.specs.Prelude.{◌≡◌, [], ◌∷◌, ◌++◌, ◌+◌, ◌≤◌, ◌<◌, length, MatchOption};
ghost use Rattle.octets.specs.Numbers.{u16_at};
ghost use Rattle.words.specs.Said.{Said};
ghost use Rattle.words.specs.Sentence.{sentence_text};
ghost use Rattle.entries.specs.Entries.{count_in, spot_in, Lies, to_text, plain_text, is_apart, what_text, entry_text, spot_text, entry_line};

use crate::message;
use words::fill::{Arg, Sentence, with};
use words::{book, fill, put};

// Where an entry lies within its sheet: the place at which it begins, and how many bytes it has after its row, its kind and their number.
#[derive(Clone, Copy)]
pub struct Spot {
    pub from: usize,
    pub long: usize,
}

// "u16 entry count"
pub fn count(s: &[u8]) -> u16
    ensures { result ≡ count_in s.now }
{
    match *s {
        [high, low, ..] => u16::from_be_bytes([high, low]),
        _ => 0,
    }
}

// The u16 at a place, where there is one.
fn number(s: &[u8], at: usize) -> Option<usize>
    requires { at < 4294967296 }
    ensures { MatchOption result (length s.now < at + 2) (λ x. (at + 2 ≤ length s.now) × (x ≡ u16_at s.now at)) }
{
    if s.len() < at + 2 {
        return None;
    }
    Some(octets::read16(s, at) as usize)
}

// Where it lies, if it lies within the sheet.
fn find(s: &[u8], i: u16) -> Option<Spot>
    ensures { (result ≡ spot_in s.now i) × Lies result (length s.now) }
{
    let from = number(s, 2 * (i as usize) + 4)?;
    let long = number(s, from + 2)?;
    if s.len() < from + 4 + long {
        return None;
    }
    Some(Spot { from, long })
}

// "A datagram's reply has row 255."
fn to(row: u8) -> Sentence
    ensures { sentence_text result ≡ to_text row }
{
    match row {
        255 => with(book::TO_SENDER, &[]),
        _ => with(book::TO_ROW, &[Arg::Number(row as usize)]),
    }
}

// "Kinds: 1 send, 2 close (empty), 3 hand on."
fn what(kind: u8, b: &[u8]) -> Sentence
    ensures { sentence_text result ≡ plain_text kind b.now }
{
    match kind {
        1 => message::message(b),
        2 => with(book::CLOSED, &[]),
        3 => message::handed_on(b),
        _ => with(book::ODD_KIND, &[Arg::Number(kind as usize)]),
    }
}

// A vehicle identification response is said apart.
fn is_apart(kind: u8, b: &[u8]) -> bool
    ensures { result ≡ is_apart kind b.now }
{
    kind == 1 && message::is_identity(b)
}

fn put_what(out: &mut [u8], at: usize, kind: u8, b: &[u8]) -> usize
    ensures { Said (what_text kind b.now) out.old out.new at result }
{
    if is_apart(kind, b) {
        message::put_identity(out, at, b)
    } else {
        fill::say(out, at, what(kind, b))
    }
}

fn put_entry(out: &mut [u8], at: usize, row: u8, kind: u8, b: &[u8]) -> usize
    ensures { Said (entry_text row kind b.now) out.old out.new at result }
{
    let p = fill::say(out, at, to(row));
    put_what(out, p, kind, b)
}

fn put_spot(out: &mut [u8], at: usize, s: &[u8], spot: Option<Spot>) -> usize
    requires { Lies spot (length s.now) }
    ensures { Said (spot_text s.now spot) out.old out.new at result }
{
    match spot {
        Some(Spot { from, long }) => {
            let start = from + 4;
            put_entry(out, at, s[from], s[from + 1], &s[start..start + long])
        }
        None => book::phrase(out, at, book::ODD_ENTRY),
    }
}

// The line of the entry with this number.
pub fn put_line(out: &mut [u8], at: usize, s: &[u8], i: u16) -> usize
    ensures { Said (entry_line s.now i) out.old out.new at result }
{
    let p = put_spot(out, at, s, find(s, i));
    put::words(out, p, b"\n")
}
