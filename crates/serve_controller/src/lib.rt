// A message from a controller, with the output sheet.
#![tactic(auto)]

ghost use Rattle.std.specs.Prelude.{◌≡◌, ◌<◌, ◌≤◌, length};
ghost use Rattle.kinds.specs.Number.{number_in};
ghost use Rattle.sheet.specs.Sheet.{most_farms};
ghost use Rattle.outsheet.specs.Contracts.{least_output};
ghost use Rattle.table.specs.Layout.{table_size};
ghost use Rattle.table.specs.Block.{farm_of};
ghost use Rattle.site.specs.Site.{Sited};
ghost use Rattle.farm_controller.specs.Message.{Messaged};
ghost use Rattle.lent.specs.Lent.{block};
ghost use Rattle.lent.specs.Served.{answered};
ghost use Rattle.serve.specs.Ready.{Ready};
ghost use Rattle.serve.specs.Moved.{MessageOut};

use kinds::{FarmNo, Refusal, Site};
use lent::Answer;
use plan::Plan;
use table::block_of;

// The farm's block is lent alone.
fn message_at(
    t: &[u8],
    p: &mut Plan,
    s: &[u8],
    f: FarmNo,
    site: Site,
    from: u16,
    to: u16,
    user: &[u8],
) -> Result<(), Refusal>
    requires { (f.0 < most_farms) × (length t.now ≡ table_size) × Sited s.now f.0 site }
    ensures { Messaged s.now f.0 (farm_of (block t.now f.0)) p.old p.new from to user.now (number_in result) }
{
    farm_controller::message(&t[block_of(f)], p, s, f, site, from, to, user)
}

// Refusals 9 and 10, else the message goes out.
pub fn send(
    s: &[u8],
    t: &[u8],
    out: &mut [u8],
    f: FarmNo,
    from: u16,
    to: u16,
    user: &[u8],
) -> Result<Answer, Refusal>
    requires { Ready s.now t.now f.0 × (least_output ≤ length out.old) }
    ensures { MessageOut s.now f.0 (farm_of (block t.now f.0)) from to user.now out.old out.new (answered result) }
{
    let site = site::site_of(s, f);
    let mut p = Plan::new();
    message_at(t, &mut p, s, f, site, from, to, user)?;
    Ok(finish::finish(out, &p, user, finish::NO_ROW, 0))
}
