// What is written after the last record: the farms' meters, and how the file ended.
ghost use Rattle.std.specs.Prelude.{◌≡◌};

use crate::text::{Style, Text, flush};
use kinds::{FarmNo, Meters};
use lines::Ending;
use table::TABLE;

impl Text {
    fn say_farm<R: Print + Eprint>(&mut self, rt: &R, f: usize, m: Meters)
        ensures { self.new.style ≡ self.old.style }
    {
        self.make_room(rt);
        self.used = match self.style {
            Style::Lines => lines::put_farm(&mut self.bytes, self.used, f, m),
            Style::Words => explain::closing::put_farm(&mut self.bytes, self.used, f, m),
        };
    }

    // "for each farm of the sheet last lent (if it is a good one)"
    pub fn say_farms<R: Print + Eprint>(&mut self, rt: &R, s: &[u8], t: &[u8; TABLE])
        ensures { self.new.style ≡ self.old.style }
    {
        if sheet_rules::sheet_ok(s) {
            for f in 0..sheet::head::farm_count(s) {
                self.say_farm(rt, f, call_meters::meters(t, FarmNo(f as u8)));
            }
        }
    }

    // The last line, and all that is gathered goes out.
    pub fn say_last<R: Print + Eprint>(&mut self, rt: &R, e: Ending)
        ensures { self.new.style ≡ self.old.style }
    {
        self.make_room(rt);
        self.used = match self.style {
            Style::Lines => lines::put_last(&mut self.bytes, self.used, e),
            Style::Words => explain::closing::put_last(&mut self.bytes, self.used, e),
        };
        flush(rt, &self.bytes, self.used);
    }
}
