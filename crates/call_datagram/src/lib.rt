// "datagram". It changes nothing of the table.
#![tactic(auto)]

ghost use Rattle.model.specs.Table.{datagram_to};
ghost use Rattle.lent.specs.Served.{memory, answered, CallServed};

use kinds::{FarmNo, Refusal};
use lent::Answer;
use sheet::farms;
use table::TABLE;

pub fn datagram(
    s: &[u8],
    t: &[u8; TABLE],
    out: &mut [u8],
    m: &[u8],
    f: FarmNo,
    input: &[u8],
) -> Answer
    ensures { CallServed s.now (datagram_to f.0 input.now) result (memory t.now out.old m.now) (memory t.now out.new m.now) }
{
    finish::answered(try_datagram(s, t, out, m, f, input))
}

fn try_datagram(
    s: &[u8],
    t: &[u8; TABLE],
    out: &mut [u8],
    m: &[u8],
    f: FarmNo,
    input: &[u8],
) -> Result<Answer, Refusal>
    ensures { CallServed s.now (datagram_to f.0 input.now) (answered result) (memory t.now out.old m.now) (memory t.now out.new m.now) }
{
    gate::refusal(s, t, out, m)?;
    if !farms::has_farm(s, f) {
        return Err(Refusal::FarmUnknown);
    }
    Ok(serve_datagram::reply(s, t, out, f, input))
}
