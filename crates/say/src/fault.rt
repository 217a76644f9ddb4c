// What went wrong, on standard error: a line with what failed, as the caller names it, and the system's words for it.
ghost use Rattle.std.specs.Prelude.{◌≤◌};

use std::fmt::Write;
use std::{fmt, io};

// The room for an error's text.
const ROOM: usize = 256;

// An error's text, gathered in the program's own memory.
#[derive(Drop)]
struct Words {
    bytes: [u8; ROOM],
    used: usize,
    ghost within: { used ≤ 256 },
}

impl Write for Words {
    fn write_str(&mut self, s: &str) -> fmt::Result {
        let fits = s.len().min(ROOM - self.used);
        let bytes = &mut self.bytes[..];
        bytes[self.used..self.used + fits].copy_from_slice(&s.as_bytes()[..fits]);
        self.used += fits;
        Ok(())
    }
}

// std writes " (os error 2)" after the system's words; here they stand alone.
fn alone(text: &str) -> &str {
    text.split_once(" (os error ")
        .map_or(text, |(words, _)| words)
}

// What can't be written there is not told.
pub fn fail<R: Eprint>(rt: &R, what: &str, error: io::Error) {
    let mut words = Words {
        bytes: [0; ROOM],
        used: 0,
    };
    let _ = write!(words, "{error}");
    let text = alone(str::from_utf8(&words.bytes[..words.used]).unwrap_or(""));
    let _ = eprintln!(rt; "{what}: {text}");
}
