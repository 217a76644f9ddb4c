// Words, numbers and bytes, each put where it has room. Each function answers the place after what it put.
ghost use Rattle.std.specs.Prelude.{[], ◌∷◌, ◌++◌, ◌≡◌, ◌+◌, ◌≤◌, length};
ghost use Rattle.octets.specs.Numbers.{be16};
ghost use Rattle.octets.specs.Says.{Says};
ghost use Rattle.lines.specs.Text.{decimal, hex};
ghost use Rattle.words.specs.Said.{Said, shown_of, letters};

use itoa::Buffer;
use lines::text;

// There is room for so many bytes more, at a place of a buffer of so many.
fn has_room(have: usize, at: usize, n: usize) -> bool
    ensures { Says result (at + n ≤ have) }
{
    at <= have && n <= have - at
}

pub fn words(out: &mut [u8], at: usize, words: &[u8]) -> usize
    ensures { Said words.now out.old out.new at result }
{
    if !has_room(out.len(), at, words.len()) {
        return at;
    }
    octets::put(out, at, words);
    at + words.len()
}

// A number in decimal.
pub fn number(out: &mut [u8], at: usize, n: usize) -> usize
    ensures { Said (decimal n) out.old out.new at result }
{
    let mut buffer = Buffer::new();
    words(out, at, buffer.format(n).as_bytes())
}

// Bytes in hexadecimal.
pub fn bytes(out: &mut [u8], at: usize, bytes: &[u8]) -> usize
    ensures { Said (hex bytes.now) out.old out.new at result }
{
    if !has_room(out.len(), at, 2 * bytes.len()) {
        return at;
    }
    text::put_hex(out, at, bytes)
}

// An address in hexadecimal.
pub fn address(out: &mut [u8], at: usize, x: u16) -> usize
    ensures { Said (hex (be16 x)) out.old out.new at result }
{
    bytes(out, at, &x.to_be_bytes())
}

// A code in hexadecimal.
pub fn code(out: &mut [u8], at: usize, c: u8) -> usize
    ensures { Said (hex (c ∷ [])) out.old out.new at result }
{
    bytes(out, at, &[c])
}

// A character by itself.
pub fn letter(out: &mut [u8], at: usize, c: u8) -> usize
    ensures { Said (c ∷ []) out.old out.new at result }
{
    words(out, at, &[c])
}

// Words, and bytes after them.
pub fn words_bytes(out: &mut [u8], at: usize, said: &[u8], b: &[u8]) -> usize
    ensures { Said (said.now ++ hex b.now) out.old out.new at result }
{
    let a = words(out, at, said);
    bytes(out, a, b)
}

fn shown(b: u8) -> u8
    ensures { result ≡ shown_of b }
{
    match b {
        b' '..=b'~' => b,
        _ => b'.',
    }
}

// Bytes that are letters, as the letters they are.
pub fn letters_of(out: &mut [u8], at: usize, b: &[u8]) -> usize
    ensures { Said (letters b.now) out.old out.new at result }
{
    if !has_room(out.len(), at, b.len()) {
        return at;
    }
    for (j, x) in b.iter().enumerate() {
        out[at + j] = shown(*x);
    }
    at + b.len()
}
