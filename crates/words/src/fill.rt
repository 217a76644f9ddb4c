// A phrase with its holes filled.
ghost use Rattle.std.specs.Prelude.{◌≡◌, ◌<◌, length, map, get_or};
ghost use Rattle.words.specs.Said.{Said};
ghost use Rattle.words.specs.Book.{fill};
ghost use Rattle.words.specs.Sentence.{arg_text, sentence, sentence_text, one_text};

use crate::{book, put};
use std::array;

// What fills a hole.
#[derive(Clone, Copy)]
pub enum Arg {
    Blank,
    // In decimal.
    Number(usize),
    // In four hexadecimal digits.
    Address(u16),
    // In two.
    Code(u8),
    // A phrase that has no hole of its own, by its number.
    Phrase(usize),
}

// A phrase by its number, and what fills its holes, in their order.
#[derive(Clone, Copy)]
pub struct Sentence {
    pub phrase: usize,
    pub args: [Arg; 4],
}

// What fills the hole with this number.
fn nth(args: &[Arg], k: usize) -> Arg
    ensures { result ≡ get_or args.now k Arg.Blank }
{
    args.get(k).copied().unwrap_or(Arg::Blank)
}

// A sentence with these in its holes. The others are blank.
pub fn with(phrase: usize, args: &[Arg]) -> Sentence
    ensures { result ≡ sentence phrase args.now }
{
    Sentence {
        phrase,
        args: array::from_fn(|k| nth(args, k)),
    }
}

const HOLE: u8 = b'%';

fn put_arg(out: &mut [u8], at: usize, a: Arg) -> usize
    ensures { Said (arg_text a) out.old out.new at result }
{
    match a {
        Arg::Blank => at,
        Arg::Number(n) => put::number(out, at, n),
        Arg::Address(x) => put::address(out, at, x),
        Arg::Code(c) => put::code(out, at, c),
        Arg::Phrase(k) => book::phrase(out, at, k),
    }
}

// A character of a phrase in which so many holes are filled.
fn put_one(out: &mut [u8], at: usize, c: u8, k: usize, args: &[Arg]) -> usize
    ensures { Said (one_text c k (map arg_text args.now)) out.old out.new at result }
{
    match c {
        HOLE => put_arg(out, at, nth(args, k)),
        _ => put::letter(out, at, c),
    }
}

fn fill_in(out: &mut [u8], at: usize, t: &[u8], args: &[Arg]) -> usize
    requires { length t.now < 4096 }
    ensures { Said (fill t.now (map arg_text args.now)) out.old out.new at result }
{
    let mut p = at;
    let mut filled: usize = 0;
    for c in t {
        p = put_one(out, p, *c, filled, args);
        if *c == HOLE {
            filled += 1;
        }
    }
    p
}

// Says a sentence.
pub fn say(out: &mut [u8], at: usize, s: Sentence) -> usize
    ensures { Said (sentence_text s) out.old out.new at result }
{
    fill_in(out, at, book::text(s.phrase), &s.args)
}
