// "tick (10 ms)": "A tick serves the farms in order".
#![tactic(auto)]

ghost use Rattle.model.specs.Table.{tick};
ghost use Rattle.lent.specs.Served.{memory, answered, CallServed};

use kinds::Refusal;
use lent::Answer;
use table::TABLE;

pub fn tick(s: &[u8], t: &mut [u8; TABLE], out: &mut [u8], m: &[u8]) -> Answer
    ensures { CallServed s.now tick result (memory t.old out.old m.now) (memory t.new out.new m.now) }
{
    finish::answered(try_tick(s, t, out, m))
}

fn try_tick(s: &[u8], t: &mut [u8; TABLE], out: &mut [u8], m: &[u8]) -> Result<Answer, Refusal>
    ensures { CallServed s.now tick (answered result) (memory t.old out.old m.now) (memory t.new out.new m.now) }
{
    gate::refusal(s, t, out, m)?;
    Ok(serve_tick::tick_all(s, t, out))
}
