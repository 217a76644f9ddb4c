// A datagram's reply, with the output sheet.
#![tactic(auto)]

ghost use Rattle.std.specs.Prelude.{◌≡◌, [], ◌≤◌, length};
ghost use Rattle.datagram.specs.Datagram.{answer_to};
ghost use Rattle.sheet.specs.Sheet.{farm_record};
ghost use Rattle.model.specs.Move.{answers, open_rows};
ghost use Rattle.outsheet.specs.Contracts.{least_output};
ghost use Rattle.table.specs.Block.{farm_of};
ghost use Rattle.lent.specs.Lent.{block};
ghost use Rattle.serve.specs.Ready.{Ready};
ghost use Rattle.serve.specs.Moved.{SaidOut};

use closing::say::VERSION;
use kinds::{FarmNo, Item, Reply, RowNo};
use lent::Answer;
use plan::Plan;
use serve::at;
use sheet::farms;

// "A datagram's reply has row 255."
fn push_answer(p: &mut Plan, a: Option<Reply>)
    requires { p.old ≡ [] }
    ensures { p.new ≡ answers a }
{
    match a {
        None => {}
        Some(reply) => {
            p.push(Item {
                row: RowNo(finish::NO_ROW),
                version: VERSION,
                reply,
            });
        }
    }
}

pub fn reply(s: &[u8], t: &[u8], out: &mut [u8], f: FarmNo, input: &[u8]) -> Answer
    requires { Ready s.now t.now f.0 × (least_output ≤ length out.old) }
    ensures { SaidOut (farm_record s.now f.0) (answers (answer_to input.now (farm_record s.now f.0) (open_rows (farm_of (block t.now f.0))))) out.old out.new result }
{
    let farm = farms::record_of(s, f);
    let n = at::open_rows(t, f);
    let a = datagram_answer::answer(input, farm, n as u8);
    let mut p = Plan::new();
    push_answer(&mut p, a);
    finish::finish(out, &p, farm, finish::NO_ROW, 0)
}
