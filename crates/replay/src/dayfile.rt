// The day's file, read in pieces: each whole record among the bytes in hand is carried out, and the rest moved to the front.
ghost use Rattle.std.specs.Prelude.{◌+◌, ◌≤◌, IfOk, length};
ghost use Rattle.say.specs.Spaces.{space_size};

use day::records::Unread;
use day::{places, records};
use lines::Ending;
use rig::{Rig, SPACE};
use say::fault::fail;
use say::text::{Style, Text};
use std::io;
use std::io::Read;

// The bytes in hand: the first of the buffer, which is the program's own memory and twice the longest record, so that there is always room
// to read into. They begin at the file's byte `base`.
#[derive(Drop)]
struct Hand {
    bytes: [u8; SPACE],
    have: usize,
    base: usize,
    ghost within: { have ≤ space_size },
}

impl Hand {
    fn empty() -> Hand {
        Hand {
            bytes: [0; SPACE],
            have: 0,
            base: 0,
        }
    }

    // One read into what is free after the bytes in hand; how many it brought.
    fn refill<F: Read>(&mut self, file: &mut F) -> io::Result<usize> {
        let bytes = &mut self.bytes[..];
        let got = file.read(&mut bytes[self.have..])?;
        self.have += got;
        Ok(got)
    }

    // Those before the place are done with.
    fn drop_front(&mut self, at: usize)
        requires { at ≤ self.old.have }
    {
        self.have = places::shift(&mut self.bytes, at, self.have);
        self.base = self.base.wrapping_add(at);
    }

    // The file is over: after a whole record, or inside one.
    fn ending(&self, calls: usize) -> Ending {
        if self.have == 0 {
            Ending::End(calls)
        } else {
            Ending::Cut(self.base)
        }
    }
}

// Carries out each whole record from the place on: where the next one is, and why that one is not read.
fn play_whole<R: Print + Eprint>(
    rt: &R,
    s: &[u8],
    rig: &mut Rig,
    text: &mut Text,
) -> (usize, Unread)
    ensures { result.0 ≤ length s.now }
{
    let mut at = 0;
    loop {
        match records::next_at(s, at) {
            Ok(found) => {
                rig.carry_out(rt, text, found.record, &s[found.rest..found.next]);
                at = found.next;
            }
            Err(why) => return (at, why),
        }
    }
}

// One read and what it completes: how the file ended, or nothing while it goes on.
fn read_on<R: Print + Eprint, F: Read>(
    rt: &R,
    file: &mut F,
    hand: &mut Hand,
    rig: &mut Rig,
    text: &mut Text,
) -> io::Result<Option<Ending>> {
    if hand.refill(file)? == 0 {
        return Ok(Some(hand.ending(rig.run.calls)));
    }
    let (at, why) = play_whole(rt, &hand.bytes[..hand.have], rig, text);
    hand.drop_front(at);
    match why {
        Unread::Cut => Ok(None),
        Unread::Bad => Ok(Some(Ending::Bad(hand.base))),
    }
}

// "After the last record": the farms' lines and the last line.
fn finish<R: Print + Eprint>(rt: &R, rig: &Rig, text: &mut Text, e: Ending) {
    let sheet = &rig.sheet[..rig.run.lent.sheet];
    text.say_farms(rt, sheet, &rig.table);
    text.say_last(rt, e);
}

// The file can't be read: it is named. Whatever could be opened has a text for its name.
fn unread<R: Eprint>(rt: &R, path: &[u8], error: io::Error) {
    fail(rt, str::from_utf8(path).unwrap_or(""), error);
}

// A proved loop has to end, and nothing says that a file does: the turns are counted.
pub fn play<R: Print + Eprint, F: Read>(rt: &R, file: &mut F, path: &[u8], style: Style) {
    let mut hand = Hand::empty();
    let mut rig = Rig::fresh();
    let mut text = Text::new(style);
    for _ in 0..u64::MAX {
        match read_on(rt, file, &mut hand, &mut rig, &mut text) {
            Ok(None) => {}
            Ok(Some(e)) => return finish(rt, &rig, &mut text, e),
            Err(e) => return unread(rt, path, e),
        }
    }
}
