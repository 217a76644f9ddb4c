// "connect": "Connect opens the lowest free row of the farm, so freed rows are used again."
#![tactic(auto)]

ghost use Rattle.model.specs.Table.{connect_to};
ghost use Rattle.lent.specs.Served.{memory, answered, CallServed};

use kinds::{FarmNo, Refusal};
use lent::Answer;
use sheet::farms;
use table::TABLE;

pub fn connect(s: &[u8], t: &mut [u8; TABLE], out: &mut [u8], m: &[u8], f: FarmNo) -> Answer
    ensures { CallServed s.now (connect_to f.0) result (memory t.old out.old m.now) (memory t.new out.new m.now) }
{
    finish::answered(try_connect(s, t, out, m, f))
}

fn try_connect(
    s: &[u8],
    t: &mut [u8; TABLE],
    out: &mut [u8],
    m: &[u8],
    f: FarmNo,
) -> Result<Answer, Refusal>
    ensures { CallServed s.now (connect_to f.0) (answered result) (memory t.old out.old m.now) (memory t.new out.new m.now) }
{
    gate::refusal(s, t, out, m)?;
    if !farms::has_farm(s, f) {
        return Err(Refusal::FarmUnknown);
    }
    let site = site::site_of(s, f);
    let rows = octets::wide(site.quota) + 1;
    let seat = serve::connect::connect_at(t, f, rows).ok_or(Refusal::NoFreeRow)?;
    let row = octets::wide(site.first) + seat;
    Ok(finish::finish_empty(out, row as u8))
}
