// "message from a controller". It changes nothing of the table.
#![tactic(auto)]

ghost use Rattle.model.specs.Table.{message_from};
ghost use Rattle.lent.specs.Served.{memory, answered, CallServed};

use kinds::{FarmNo, Refusal};
use lent::Answer;
use sheet::farms;
use table::TABLE;

pub fn controller_message(
    s: &[u8],
    t: &[u8; TABLE],
    out: &mut [u8],
    m: &[u8],
    f: FarmNo,
    controller: u16,
    tester: u16,
    user: &[u8],
) -> Answer
    ensures { CallServed s.now (message_from f.0 controller tester user.now) result (memory t.now out.old m.now) (memory t.now out.new m.now) }
{
    finish::answered(try_message(s, t, out, m, f, controller, tester, user))
}

fn try_message(
    s: &[u8],
    t: &[u8; TABLE],
    out: &mut [u8],
    m: &[u8],
    f: FarmNo,
    controller: u16,
    tester: u16,
    user: &[u8],
) -> Result<Answer, Refusal>
    ensures { CallServed s.now (message_from f.0 controller tester user.now) (answered result) (memory t.now out.old m.now) (memory t.now out.new m.now) }
{
    gate::refusal(s, t, out, m)?;
    if !farms::has_farm(s, f) {
        return Err(Refusal::FarmUnknown);
    }
    serve_controller::send(s, t, out, f, controller, tester, user)
}
