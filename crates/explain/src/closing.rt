// The farms' meters, and how the file ended.
#![tactic(auto, using(crate::proofs::HeadingLaws::said), unfolding(crate::specs::Closings::farm_text, crate::specs::Closings::last_text))]

ghost use Rattle.std.specs.Prelude.{◌≡◌};
ghost use Rattle.words.specs.Said.{Said};
ghost use Rattle.words.specs.Sentence.{sentence_text};
ghost use Rattle.explain.specs.Closings.{farm_text, last_text, farm_line, last_line};

use kinds::Meters;
use lines::Ending;
use words::fill::{Arg, Sentence, with};
use words::{book, fill, put};

fn farm(f: usize, m: Meters) -> Sentence
    ensures { sentence_text result ≡ farm_text f m.taken m.finished m.lost }
{
    with(
        book::FARM,
        &[
            Arg::Number(f),
            Arg::Number(m.taken as usize),
            Arg::Number(m.finished as usize),
            Arg::Number(m.lost as usize),
        ],
    )
}

fn last(e: Ending) -> Sentence
    ensures { sentence_text result ≡ last_text e }
{
    match e {
        Ending::End(n) => with(book::END, &[Arg::Number(n)]),
        Ending::Cut(n) => with(book::CUT, &[Arg::Number(n)]),
        Ending::Bad(n) => with(book::BAD, &[Arg::Number(n)]),
    }
}

// The line of a farm.
pub fn put_farm(out: &mut [u8], at: usize, f: usize, m: Meters) -> usize
    ensures { Said (farm_line f m.taken m.finished m.lost) out.old out.new at result }
{
    let p = fill::say(out, at, farm(f, m));
    put::words(out, p, b"\n")
}

// The last line.
pub fn put_last(out: &mut [u8], at: usize, e: Ending) -> usize
    ensures { Said (last_line e) out.old out.new at result }
{
    let p = fill::say(out, at, last(e));
    put::words(out, p, b"\n")
}
