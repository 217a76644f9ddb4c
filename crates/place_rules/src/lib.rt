// "a stream place is impossible: eight header bytes or more still unjudged, a payload already complete, a payload being read whose header
// would be judged wrong, or one being skipped whose header would not get NACK 01 or 02"
#![tactic(auto)]

ghost use Rattle.std.specs.Prelude.{◌≡◌, ◌-◌, ltb, length, drop, replicate};
ghost use Rattle.octets.specs.Choice.{both};
ghost use Rattle.octets.specs.Search.{same_list};
ghost use Rattle.wire.specs.Header.{header_size, verdict_of};
ghost use Rattle.model.specs.RuleTest.{passes, is_skipped, possible_at, is_boundary, tidy_at};

use kinds::{Fault, Place};
use wire::header;
use wire::header::Header;

const HEADER: usize = 8;

// ---- a payload that is read or skipped: only here is the header judged again; the two ask the verdict something else

fn reads(h: Header, n: u32) -> bool
    ensures { result ≡ both (ltb n h.length) (passes (verdict_of h)) }
{
    n < h.length && header::judge(h).is_ok()
}

fn skips(h: Header, n: u32) -> bool
    ensures { result ≡ both (ltb n h.length) (is_skipped (verdict_of h)) }
{
    n < h.length && matches!(header::judge(h), Err(Fault::UnknownType | Fault::TooLong))
}

pub fn possible(place: Place, head: [u8; HEADER]) -> bool
    ensures { result ≡ possible_at place head }
{
    match place {
        Place::Header(n) => n < 8,
        Place::Reading(n) => reads(header::read(&head, 0), n),
        Place::Skipping(n) => skips(header::read(&head, 0), n),
    }
}

// ---- what means nothing has one value

// Between two messages.
pub fn is_boundary(place: Place) -> bool
    ensures { result ≡ is_boundary place }
{
    matches!(place, Place::Header(0))
}

// The header's bytes from the n-th on are 0.
fn zeros_from(head: [u8; HEADER], n: usize) -> bool
    ensures { result ≡ same_list (drop n head) (replicate (header_size - n) 0) }
{
    head.iter().skip(n).all(|b| *b == 0)
}

// Between two messages no byte is in hand, and most rows are there: the eight bytes as one number.
fn none_in_hand(head: [u8; HEADER]) -> bool
    ensures { result ≡ same_list head (replicate header_size 0) }
{
    u64::from_be_bytes(head) == 0
}

fn rest_zero(head: [u8; HEADER], n: u8) -> bool
    ensures { result ≡ same_list (drop n head) (replicate (header_size - n) 0) }
{
    if n == 0 {
        none_in_hand(head)
    } else {
        zeros_from(head, usize::from(n))
    }
}

pub fn tidy(place: Place, head: [u8; HEADER]) -> bool
    ensures { result ≡ tidy_at place head }
{
    match place {
        Place::Header(n) => rest_zero(head, n),
        Place::Reading(_) | Place::Skipping(_) => true,
    }
}
