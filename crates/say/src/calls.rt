// What is written of a call.
ghost use Rattle.std.specs.Prelude.{◌≡◌, ◌≤◌, length};
ghost use Rattle.say.specs.Spaces.{space_size};

use crate::text::{Style, Text};
use day::records::Call;
use entries::entry;
use explain::heading;
use lent::Answer;

impl Text {
    // Its line: "the answer's number, its row, the bytes taken, all decimal, then the output sheet".
    fn say_answer<R: Print + Eprint>(&mut self, rt: &R, a: Answer, sheet: &[u8])
        requires { length sheet.now ≤ space_size }
        ensures { self.new.style ≡ self.old.style }
    {
        self.make_room(rt);
        self.used = lines::put_answer(&mut self.bytes, self.used, a.number, a.row, a.taken, sheet);
    }

    // "under it one indented line per entry"
    fn tell_entries<R: Print + Eprint>(&mut self, rt: &R, sheet: &[u8])
        ensures { self.new.style ≡ self.old.style }
    {
        for i in 0..entry::count(sheet) {
            self.make_room(rt);
            self.used = entry::put_line(&mut self.bytes, self.used, sheet, i);
        }
    }

    // The call in words: its number in the file, the answer, and how many bytes were given to it.
    fn tell_call<R: Print + Eprint>(
        &mut self,
        rt: &R,
        n: usize,
        call: Call,
        given: usize,
        a: Answer,
        sheet: &[u8],
    )
        ensures { self.new.style ≡ self.old.style }
    {
        self.make_room(rt);
        self.used = heading::put_line(
            &mut self.bytes,
            self.used,
            n,
            call,
            a.number,
            a.row,
            a.taken,
            given,
        );
        self.tell_entries(rt, sheet);
    }

    // The one or the other; out begins with the call's output sheet.
    pub fn say_call<R: Print + Eprint>(
        &mut self,
        rt: &R,
        n: usize,
        call: Call,
        given: usize,
        a: Answer,
        out: &[u8],
    )
        requires { (a.length ≤ length out.now) × (length out.now ≤ space_size) }
        ensures { self.new.style ≡ self.old.style }
    {
        let sheet = &out[..a.length];
        match self.style {
            Style::Lines => self.say_answer(rt, a, sheet),
            Style::Words => self.tell_call(rt, n, call, given, a, sheet),
        }
    }
}
