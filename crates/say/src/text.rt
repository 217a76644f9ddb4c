// The text that lines are gathered in. It is written when it is full: one write for thousands of lines.
ghost use Rattle.std.specs.Prelude.{◌≡◌, ◌+◌, ◌≤◌, ◌⊎◌, length};
ghost use Rattle.say.specs.Spaces.{text_size, line_size};

use crate::fault::fail;

// The room for the text.
pub const TEXT: usize = 262144;

// The longest line: an answer's numbers, and an output sheet as long as the buffer, two characters for a byte.
const LINE: usize = 131200;

// How the calls are told. It is chosen when the program runs: as a type parameter it would have every call in the program twice.
#[derive(Clone, Copy)]
pub enum Style {
    // A line for each, in numbers.
    Lines,
    Words,
}

// So many of the bytes are used. They are the program's own memory: no heap is asked for.
#[derive(Drop)]
pub struct Text {
    pub style: Style,
    pub bytes: [u8; TEXT],
    pub used: usize,
    ghost within: { used ≤ text_size },
}

// Writes all that is gathered, of bytes of any length: a Text would be narrower.
pub fn flush<R: Print + Eprint>(rt: &R, text: &[u8], used: usize)
    requires { used ≤ length text.now }
{
    if let Err(e) = rt.write_all(&text[..used]) {
        fail(rt, "standard output", e);
    }
}

impl Text {
    pub fn new(style: Style) -> Text
        ensures { (result.style ≡ style) × (result.used ≡ 0) }
    {
        Text {
            style,
            bytes: [0; TEXT],
            used: 0,
        }
    }

    // There is room for the next line after what is used. All else stays: what is gathered is either still there or written.
    pub fn make_room<R: Print + Eprint>(&mut self, rt: &R)
        ensures room { self.new.used + line_size ≤ text_size }
        ensures kept { (self.new.bytes ≡ self.old.bytes) × (self.new.style ≡ self.old.style) }
        ensures used { (self.new.used ≡ self.old.used) ⊎ (self.new.used ≡ 0) }
    {
        if TEXT - self.used < LINE {
            flush(rt, &self.bytes, self.used);
            self.used = 0;
        }
    }
}
