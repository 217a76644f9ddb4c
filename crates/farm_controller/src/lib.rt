// "A controller message goes out as 8001: controller, tester, user data." The user data are lent beside the plan.
#![tactic(auto)]

ghost use Rattle.std.specs.Prelude.{◌≡◌, length};
ghost use Rattle.kinds.specs.Number.{number_in};
ghost use Rattle.sheet.specs.Rules.{GoodSheet};
ghost use Rattle.model.specs.FarmSheet.{farm_sheet};
ghost use Rattle.model.specs.Move.{is_target};
ghost use Rattle.table.specs.Layout.{block_size};
ghost use Rattle.table.specs.Block.{farm_of};
ghost use Rattle.site.specs.Site.{Sited};
ghost use Rattle.farm_controller.specs.Message.{size_fits, Messaged};

use closing::say;
use kinds::{FarmNo, Refusal, Reply, Site};
use plan::Plan;
use sheet::find;

// "9 | controller message with 0 or over 2,044 bytes of user data"
const MOST_USER: usize = 2044;

#[tactic(auto, unfolding(model::specs::Move::most_user))]
fn size_fits(n: usize) -> bool
    ensures { result ≡ size_fits n }
{
    0 < n && n <= MOST_USER
}

// "controller address not a target of that farm": one that is not reachable is a target too.
#[tactic(auto, unfolding(model::specs::FarmSheet::farm_sheet))]
fn is_target(s: &[u8], f: FarmNo, from: u16) -> bool
    requires { GoodSheet s.now }
    ensures { result ≡ is_target ((farm_sheet s.now f.0).target from) }
{
    find::find_target(s, from).is_some_and(|target| target.farm == f)
}

pub fn message(
    b: &[u8],
    p: &mut Plan,
    s: &[u8],
    f: FarmNo,
    site: Site,
    from: u16,
    to: u16,
    user: &[u8],
) -> Result<(), Refusal>
    requires { (length b.now ≡ block_size) × Sited s.now f.0 site }
    ensures { Messaged s.now f.0 (farm_of b.now) p.old p.new from to user.now (number_in result) }
{
    if !size_fits(user.len()) {
        return Err(Refusal::UserUnfit);
    }
    if !is_target(s, f, from) {
        return Err(Refusal::EndsUnknown);
    }
    let seat = decide::holder(b, to).ok_or(Refusal::EndsUnknown)?;
    say::say(p, site, seat, Reply::Message(from, to));
    Ok(())
}
