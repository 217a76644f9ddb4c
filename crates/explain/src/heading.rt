// The heading of a call.
ghost use Rattle.std.specs.Prelude.{◌≡◌};
ghost use Rattle.words.specs.Said.{Said};
ghost use Rattle.words.specs.Sentence.{sentence_text};
ghost use Rattle.explain.specs.Headings.{call_text, done_text, refused_text, answer_text, count_text, heading_line};

use day::records::Call;
use words::fill::{Arg, Sentence, with};
use words::{book, fill, names, put};

#[tactic(auto, using(crate::proofs::HeadingLaws::said), unfolding(crate::specs::Headings::call_text))]
fn about(call: Call) -> Sentence
    ensures { sentence_text result ≡ call_text call }
{
    match call {
        Call::Start => with(book::START, &[]),
        Call::Connect(f) => with(book::CONNECT, &[Arg::Number(f.0 as usize)]),
        Call::Bytes(r) => with(book::BYTES, &[Arg::Number(r.0 as usize)]),
        Call::Closed(r) => with(book::PEER_CLOSED, &[Arg::Number(r.0 as usize)]),
        Call::Lost(f) => with(book::LINK_LOST, &[Arg::Number(f.0 as usize)]),
        Call::Tick => with(book::TICK, &[]),
        Call::Datagram(f) => with(book::DATAGRAM, &[Arg::Number(f.0 as usize)]),
        Call::Controller(f, c, t) => with(
            book::CONTROLLER,
            &[Arg::Number(f.0 as usize), Arg::Address(c), Arg::Address(t)],
        ),
    }
}

// So many bytes were given, and so many taken.
#[tactic(auto, using(crate::proofs::HeadingLaws::said), unfolding(crate::specs::Headings::done_text))]
fn done(call: Call, row: u8, taken: usize, given: usize) -> Sentence
    ensures { sentence_text result ≡ done_text call row taken given }
{
    match call {
        Call::Connect(_) => with(book::OPENED, &[Arg::Number(row as usize)]),
        Call::Bytes(_) => with(book::TAKEN, &[Arg::Number(taken), Arg::Number(given)]),
        _ => with(book::DONE, &[]),
    }
}

#[tactic(auto, using(crate::proofs::HeadingLaws::said), unfolding(crate::specs::Headings::refused_text))]
fn refused(number: u8) -> Sentence
    ensures { sentence_text result ≡ refused_text number }
{
    with(
        book::REFUSED,
        &[
            Arg::Number(number as usize),
            Arg::Phrase(names::refusal(number)),
        ],
    )
}

fn answer(call: Call, number: u8, row: u8, taken: usize, given: usize) -> Sentence
    ensures { sentence_text result ≡ answer_text call number row taken given }
{
    match number {
        0 => done(call, row, taken, given),
        _ => refused(number),
    }
}

#[tactic(auto, using(crate::proofs::HeadingLaws::said), unfolding(crate::specs::Headings::count_text))]
fn count(n: usize) -> Sentence
    ensures { sentence_text result ≡ count_text n }
{
    with(book::CALL, &[Arg::Number(n)])
}

// The call with the number n in its file: its answer, and how many bytes were given to it. The answer's fields come one by one: they are
// one in the crate lent, which stands on the table, and a heading needs none.
pub fn put_line(
    out: &mut [u8],
    at: usize,
    n: usize,
    call: Call,
    number: u8,
    row: u8,
    taken: usize,
    given: usize,
) -> usize
    ensures { Said (heading_line n call number row taken given) out.old out.new at result }
{
    let p = fill::say(out, at, count(n));
    let q = fill::say(out, p, about(call));
    let r = fill::say(out, q, answer(call, number, row, taken, given));
    put::words(out, r, b"\n")
}
