// The lines that are printed for a day of recorded calls. Each function answers the place after what it put.
#![tactic(auto, using(crate::proofs::LinesLaws::room))]

ghost use Rattle.std.specs.Prelude.{◌≡◌, ◌++◌, ◌+◌, ◌*◌, ◌≤◌, length};
ghost use Rattle.lines.specs.Text.{decimal, most_digits, Wrote};
ghost use Rattle.lines.specs.Lines.{most_counts, most_farm_line, most_last_line, counts_text, sheet_text, answer_line, farm_line, last_word, last_line};

use kinds::Meters;

pub mod text; // text.rt: numbers as digits, bytes as hexadecimal

// How the file ended.
#[derive(Clone, Copy)]
pub enum Ending {
    // After a whole record: the number of calls.
    End(usize),
    // Inside a record, which begins at this byte.
    Cut(usize),
    // At a bad record, which begins at this byte.
    Bad(usize),
}

fn put_words(out: &mut [u8], at: usize, words: &[u8]) -> usize
    requires { at + length words.now ≤ length out.old }
    ensures { Wrote words.now out.old out.new at result }
{
    octets::put(out, at, words);
    at + words.len()
}

fn put_named(out: &mut [u8], at: usize, words: &[u8], n: usize) -> usize
    requires { at + length words.now + most_digits ≤ length out.old }
    ensures { Wrote (words.now ++ decimal n) out.old out.new at result }
{
    let p = put_words(out, at, words);
    text::put_decimal(out, p, n)
}

// "the answer's number, its row, the bytes taken, all decimal"
fn put_counts(out: &mut [u8], at: usize, number: u8, row: u8, taken: usize) -> usize
    requires { at + most_counts ≤ length out.old }
    ensures { Wrote (counts_text number row taken) out.old out.new at result }
{
    let a = text::put_decimal(out, at, number as usize);
    let b = put_named(out, a, b" ", row as usize);
    let c = put_named(out, b, b" ", taken);
    put_words(out, c, b" ")
}

// "then the output sheet in lower-case hexadecimal (the bytes up to the total length), or `-` for a refused call"
fn put_sheet(out: &mut [u8], at: usize, number: u8, sheet: &[u8]) -> usize
    requires { at + (2 * length sheet.now + 1) ≤ length out.old }
    ensures { Wrote (sheet_text number sheet.now) out.old out.new at result }
{
    match number {
        0 => text::put_hex(out, at, sheet),
        _ => put_words(out, at, b"-"),
    }
}

// The line of a call. The answer's fields come one by one: they are one in the crate lent, which stands on the table, and a line needs none.
pub fn put_answer(
    out: &mut [u8],
    at: usize,
    number: u8,
    row: u8,
    taken: usize,
    sheet: &[u8],
) -> usize
    requires { at + (most_counts + (2 * length sheet.now + 2)) ≤ length out.old }
    ensures { Wrote (answer_line number row taken sheet.now) out.old out.new at result }
{
    let a = put_counts(out, at, number, row, taken);
    let b = put_sheet(out, a, number, sheet);
    put_words(out, b, b"\n")
}

// The line of a farm.
pub fn put_farm(out: &mut [u8], at: usize, f: usize, m: Meters) -> usize
    requires { at + most_farm_line ≤ length out.old }
    ensures { Wrote (farm_line f m.taken m.finished m.lost) out.old out.new at result }
{
    let a = put_named(out, at, b"farm ", f);
    let b = put_named(out, a, b" taken ", m.taken as usize);
    let c = put_named(out, b, b" finished ", m.finished as usize);
    let d = put_named(out, c, b" lost ", m.lost as usize);
    put_words(out, d, b"\n")
}

fn put_ending(out: &mut [u8], at: usize, e: Ending) -> usize
    requires { at + most_last_line ≤ length out.old }
    ensures { Wrote (last_word e) out.old out.new at result }
{
    match e {
        Ending::End(n) => put_named(out, at, b"end ", n),
        Ending::Cut(n) => put_named(out, at, b"cut at ", n),
        Ending::Bad(n) => put_named(out, at, b"bad at ", n),
    }
}

// The last line.
pub fn put_last(out: &mut [u8], at: usize, e: Ending) -> usize
    requires { at + (most_last_line + 1) ≤ length out.old }
    ensures { Wrote (last_line e) out.old out.new at result }
{
    let a = put_ending(out, at, e);
    put_words(out, a, b"\n")
}
