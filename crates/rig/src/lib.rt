// One record carried out on the program's own memory: "Both buffers and the table are the program's own memory, carried from call to call."
#![tactic(auto)]

ghost use Rattle.std.specs.Prelude.{◌≡◌, ◌≤◌, length};
ghost use Rattle.day.specs.Next.{RoomsFit};
ghost use Rattle.lent.specs.Served.{memory, Served};
ghost use Rattle.rig.specs.Played.{played};
ghost use Rattle.say.specs.Spaces.{space_size};

use day::places;
use day::records::{Call, Record};
use lent::Answer;
use say::text::Text;
use table::TABLE;

// "each at most 65,536"
pub const SPACE: usize = 65536;

// How much of each buffer is lent to a call.
#[derive(Clone, Copy)]
pub struct Lent {
    pub sheet: usize,
    pub output: usize,
    pub assembling: usize,
    ghost sheet_within: { sheet ≤ space_size },
    ghost output_within: { output ≤ space_size },
    ghost assembling_within: { assembling ≤ space_size },
}

// What is kept from record to record beside the memory: how much of it is lent, and the number of calls.
#[derive(Clone, Copy)]
pub struct Run {
    pub lent: Lent,
    pub calls: usize,
}

// The memory that is lent, and what is kept beside it. The text that the calls are told in is apart: were it a field too, the compiler could not
// tell the lines that are written from the sheet that is read, and a long sheet's line took over four times as long.
#[derive(Drop)]
pub struct Rig {
    pub sheet: [u8; SPACE],
    pub table: [u8; TABLE],
    pub output: [u8; SPACE],
    pub assembling: [u8; SPACE],
    pub run: Run,
}

// The call, with all that is lent to it: the memory in parts, as `Served` speaks of it.
fn make(
    call: Call,
    rest: &[u8],
    s: &[u8],
    t: &mut [u8; TABLE],
    out: &mut [u8],
    m: &mut [u8],
) -> Answer
    ensures { Served s.now (played call rest.now s.now t.old out.old m.old) result (memory t.old out.old m.old) (memory t.new out.new m.new) }
{
    match call {
        Call::Start => gateway::start(s, t, out, m),
        Call::Connect(f) => gateway::connect(s, t, out, m, f),
        Call::Bytes(row) => gateway::bytes(s, t, out, m, row, rest),
        Call::Closed(row) => gateway::peer_closed(s, t, out, m, row),
        Call::Lost(f) => gateway::link_lost(s, t, out, m, f),
        Call::Tick => gateway::tick(s, t, out, m),
        Call::Datagram(f) => gateway::datagram(s, t, out, m, f, rest),
        Call::Controller(f, from, to) => {
            gateway::controller_message(s, t, out, m, f, from, to, rest)
        }
    }
}

impl Rig {
    // "Before the first records: the sheet is empty [..], the output buffer has 4,096 zero bytes, the assembling buffer the document's
    // exact length".
    pub fn fresh() -> Rig
        ensures lent { (result.run.lent.sheet ≡ 0) × (result.run.lent.output ≡ 4096) × (result.run.lent.assembling ≡ 32768) }
        ensures told { result.run.calls ≡ 0 }
    {
        Rig {
            sheet: [0; SPACE],
            table: [0; TABLE],
            output: [0; SPACE],
            assembling: [0; SPACE],
            run: Run {
                lent: Lent {
                    sheet: 0,
                    output: 4096,
                    assembling: 32768,
                },
                calls: 0,
            },
        }
    }

    // A call, and what is written of it.
    fn answer<R: Print + Eprint>(&mut self, rt: &R, text: &mut Text, call: Call, rest: &[u8]) {
        let lent = self.run.lent;
        let output = &mut self.output[..];
        let assembling = &mut self.assembling[..];
        let a = make(
            call,
            rest,
            &self.sheet[..lent.sheet],
            &mut self.table,
            &mut output[..lent.output],
            &mut assembling[..lent.assembling],
        );
        self.run.calls = self.run.calls.wrapping_add(1);
        let given = rest.len();
        text.say_call(rt, self.run.calls, call, given, a, &self.output);
    }

    fn lend_sheet(&mut self, rest: &[u8])
        requires { length rest.now ≤ space_size }
    {
        octets::put(&mut self.sheet, 0, rest);
        self.run.lent.sheet = rest.len();
    }

    fn lend_rooms(&mut self, output: u32, assembling: u32)
        requires { (output ≤ space_size) × (assembling ≤ space_size) }
    {
        self.run.lent.output = output as usize;
        self.run.lent.assembling = assembling as usize;
    }

    // A record, it; rest are the bytes that it ends in.
    pub fn carry_out<R: Print + Eprint>(&mut self, rt: &R, text: &mut Text, it: Record, rest: &[u8])
        requires { RoomsFit it × (length rest.now ≤ space_size) }
    {
        match it {
            Record::Made(call) => self.answer(rt, text, call, rest),
            Record::Sheet => self.lend_sheet(rest),
            Record::Rooms(output, assembling) => self.lend_rooms(output, assembling),
            Record::Damage(at) => places::damage(&mut self.table, at as usize, rest),
        }
    }
}
