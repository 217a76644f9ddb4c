// What is said of a message that is sent, and of a payload that is handed on.
#![tactic(auto, using(crate::proofs::MessageLaws::said))]

ghost use Rattle.std.specs.Prelude.{◌≡◌, [], ◌∷◌, length};
ghost use Rattle.octets.specs.Numbers.{u16_at};
ghost use Rattle.words.specs.Book.{phrase};
ghost use Rattle.words.specs.Said.{Said};
ghost use Rattle.words.specs.Sentence.{sentence_text};
ghost use Rattle.entries.specs.Messages.{unreadable, nack_text, activation_text, alive_text, status_text, mode_text, diagnostic_text};
ghost use Rattle.entries.specs.Messages.{answered_text, payload_text, message_text, is_identity, identity_text, handed_text};

use words::fill::{Arg, Sentence, with};
use words::{book, fill, names, put};

// The bytes are not as their type has them.
fn odd() -> Sentence
    ensures { sentence_text result ≡ unreadable }
{
    with(book::ODD_MESSAGE, &[])
}

fn address(high: u8, low: u8) -> Arg
    ensures { result ≡ Arg.Address (u16_at (high ∷ low ∷ []) 0) }
{
    Arg::Address(u16::from_be_bytes([high, low]))
}

#[tactic(auto, using(crate::proofs::MessageLaws::said), unfolding(crate::specs::Messages::nack_text))]
fn nack(p: &[u8]) -> Sentence
    ensures { sentence_text result ≡ nack_text p.now }
{
    match *p {
        [c] => with(book::NACK, &[Arg::Code(c), Arg::Phrase(names::fault(c))]),
        _ => odd(),
    }
}

#[tactic(auto, using(crate::proofs::MessageLaws::said), unfolding(crate::specs::Messages::activation_text))]
fn activation(p: &[u8]) -> Sentence
    ensures { sentence_text result ≡ activation_text p.now }
{
    match *p {
        [t0, t1, e0, e1, c, _, _, _, _] => with(
            book::ACTIVATION,
            &[
                address(t0, t1),
                address(e0, e1),
                Arg::Code(c),
                Arg::Phrase(names::activation(c)),
            ],
        ),
        _ => odd(),
    }
}

#[tactic(auto, using(crate::proofs::MessageLaws::said), unfolding(crate::specs::Messages::alive_text))]
fn alive_check(p: &[u8]) -> Sentence
    ensures { sentence_text result ≡ alive_text p.now }
{
    if p.is_empty() {
        with(book::ALIVE_CHECK, &[])
    } else {
        odd()
    }
}

#[tactic(auto, using(crate::proofs::MessageLaws::said), unfolding(crate::specs::Messages::status_text))]
fn status(p: &[u8]) -> Sentence
    ensures { sentence_text result ≡ status_text p.now }
{
    match *p {
        [_, places, opened, a, b, c, d] => with(
            book::STATUS,
            &[
                Arg::Number(places as usize),
                Arg::Number(opened as usize),
                Arg::Number(u32::from_be_bytes([a, b, c, d]) as usize),
            ],
        ),
        _ => odd(),
    }
}

#[tactic(auto, using(crate::proofs::MessageLaws::said), unfolding(crate::specs::Messages::mode_text))]
fn power_mode(p: &[u8]) -> Sentence
    ensures { sentence_text result ≡ mode_text p.now }
{
    match *p {
        [c] => with(
            book::POWER_MODE,
            &[Arg::Code(c), Arg::Phrase(names::mode(c))],
        ),
        _ => odd(),
    }
}

#[tactic(auto, using(crate::proofs::MessageLaws::said), unfolding(crate::specs::Messages::diagnostic_text))]
fn diagnostic(p: &[u8]) -> Sentence
    ensures { sentence_text result ≡ diagnostic_text p.now }
{
    match *p {
        [c0, c1, t0, t1, ref data @ ..] => with(
            book::MESSAGE,
            &[address(c0, c1), address(t0, t1), Arg::Number(data.len())],
        ),
        _ => odd(),
    }
}

// The answer to a diagnostic message: the phrase says which of the two.
#[tactic(auto, using(crate::proofs::MessageLaws::said), unfolding(crate::specs::Messages::answered_text))]
fn answered(p: &[u8], which: usize) -> Sentence
    ensures { sentence_text result ≡ answered_text (phrase which) p.now }
{
    match *p {
        [c0, c1, t0, t1, c] => with(
            which,
            &[
                address(c0, c1),
                address(t0, t1),
                Arg::Code(c),
                Arg::Phrase(names::diagnostic(c)),
            ],
        ),
        _ => odd(),
    }
}

// The type says which.
#[tactic(auto, unfolding(crate::specs::Messages::payload_text, words::specs::Book::phrase, words::specs::Book::book))]
fn payload(kind: u16, p: &[u8]) -> Sentence
    ensures { sentence_text result ≡ payload_text kind p.now }
{
    match kind {
        0x0000 => nack(p),
        0x0006 => activation(p),
        0x0007 => alive_check(p),
        0x4002 => status(p),
        0x4004 => power_mode(p),
        0x8001 => diagnostic(p),
        0x8002 => answered(p, book::POSITIVE),
        0x8003 => answered(p, book::NEGATIVE),
        _ => odd(),
    }
}

#[tactic(auto, using(crate::proofs::MessageLaws::said), unfolding(crate::specs::Messages::message_text))]
pub fn message(b: &[u8]) -> Sentence
    ensures { sentence_text result ≡ message_text b.now }
{
    match *b {
        [_, _, k0, k1, _, _, _, _, ref p @ ..] => payload(u16::from_be_bytes([k0, k1]), p),
        _ => odd(),
    }
}

#[tactic(auto, using(crate::proofs::MessageLaws::said), unfolding(crate::specs::Messages::handed_text))]
pub fn handed_on(p: &[u8]) -> Sentence
    ensures { sentence_text result ≡ handed_text p.now }
{
    match *p {
        [t0, t1, c0, c1, ref data @ ..] => with(
            book::HANDED_ON,
            &[address(t0, t1), address(c0, c1), Arg::Number(data.len())],
        ),
        _ => with(book::ODD_PAYLOAD, &[]),
    }
}

// A vehicle identification response, which has bytes that no sentence holds.
pub fn is_identity(b: &[u8]) -> bool
    ensures { result ≡ is_identity b.now }
{
    b.len() == 40 && octets::read16(b, 2) == 0x0004
}

pub fn put_identity(out: &mut [u8], at: usize, b: &[u8]) -> usize
    requires { length b.now ≡ 40 }
    ensures { Said (identity_text b.now) out.old out.new at result }
{
    let s = with(book::IDENTITY, &[address(b[25], b[26])]);
    let p = fill::say(out, at, s);
    let q = put::letters_of(out, p, &b[8..25]);
    let r = put::words_bytes(out, q, b", EID ", &b[27..33]);
    put::words_bytes(out, r, b", GID ", &b[33..39])
}
