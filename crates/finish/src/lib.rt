// What a call answers.
#![tactic(auto)]

ghost use Rattle.std.specs.Prelude.{◌≡◌, [], ◌≤◌, length};
ghost use Rattle.outsheet.specs.Sheet.{sheet_of};
ghost use Rattle.outsheet.specs.Replies.{entries_of};
ghost use Rattle.outsheet.specs.Contracts.{least_output, Room, Wrote};
ghost use Rattle.lent.specs.Served.{refusal, done, answered};

use kinds::Refusal;
use lent::Answer;
use plan::Plan;

// Where an answer has no row: "its row is the opened one for connect, else 255".
pub const NO_ROW: u8 = 255;

// "A refusal returns its number, output length 0, bytes taken 0, row 255." It takes a number and no Refusal: its promise is of each number,
// and a narrower type would ask more.
pub fn refused(n: u8) -> Answer
    ensures { result ≡ refusal n }
{
    Answer {
        number: n,
        row: NO_ROW,
        taken: 0,
        length: 0,
    }
}

// What a host is answered.
pub fn answered(call: Result<Answer, Refusal>) -> Answer
    ensures { result ≡ answered call }
{
    match call {
        Ok(done) => done,
        Err(why) => refused(why.number()),
    }
}

// The call is done: its output sheet is written, once, from the plan.
pub fn finish(out: &mut [u8], p: &Plan, long: &[u8], row: u8, taken: usize) -> Answer
    requires { Room p.now long.now (length out.old) }
    ensures value { result ≡ done row taken result.length }
    ensures wrote { Wrote (sheet_of (entries_of long.now p.now)) out.old out.new result.length }
{
    let n = sheet_writer::write_sheet(out, p, long);
    Answer {
        number: 0,
        row: row,
        taken: taken,
        length: n,
    }
}

// The same of a call with no long payload.
pub fn finish_short(out: &mut [u8], p: &Plan, row: u8) -> Answer
    requires { Room p.now [] (length out.old) }
    ensures value { result ≡ done row 0 result.length }
    ensures wrote { Wrote (sheet_of (entries_of [] p.now)) out.old out.new result.length }
{
    finish(out, p, &[], row, 0)
}

// The sheet of no entries.
const NO_ENTRY: [u8; 4] = [0, 0, 0, 4];

// The same of a call with no entry: "a sheet with no entry is `00 00 00 04`". It asks for no plan, which would be most of the stack that
// the call takes.
pub fn finish_empty(out: &mut [u8], row: u8) -> Answer
    requires { least_output ≤ length out.old }
    ensures value { result ≡ done row 0 result.length }
    ensures wrote { Wrote (sheet_of (entries_of [] [])) out.old out.new result.length }
{
    octets::put(out, 0, &NO_ENTRY);
    Answer {
        number: 0,
        row,
        taken: 0,
        length: NO_ENTRY.len(),
    }
}
