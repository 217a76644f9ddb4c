// "start a fresh table": "A new table holds all rows free and all meters 0."
#![tactic(auto)]

ghost use Rattle.lent.specs.Served.{memory, answered, StartServed};

use kinds::Refusal;
use lent::Answer;
use table::TABLE;

pub fn start(s: &[u8], t: &mut [u8; TABLE], out: &mut [u8], m: &[u8]) -> Answer
    ensures { StartServed s.now result (memory t.old out.old m.now) (memory t.new out.new m.now) }
{
    finish::answered(try_start(s, t, out, m))
}

// A new farm is all zero bytes (crate table).
fn try_start(s: &[u8], t: &mut [u8; TABLE], out: &mut [u8], m: &[u8]) -> Result<Answer, Refusal>
    ensures { StartServed s.now (answered result) (memory t.old out.old m.now) (memory t.new out.new m.now) }
{
    gate::start_refusal(s, out, m)?;
    t.fill(0);
    Ok(finish::finish_empty(out, finish::NO_ROW))
}
