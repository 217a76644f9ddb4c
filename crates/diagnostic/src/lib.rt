// "Diagnostic messages (001, 9.5)": 8001 is refused, or acknowledged and handed on.
#![tactic(auto)]

ghost use Rattle.std.specs.Prelude.{◌≡◌, ◌<◌};
ghost use Rattle.sheet.specs.Rules.{GoodSheet};
ghost use Rattle.model.specs.FarmSheet.{farm_sheet};
ghost use Rattle.model.specs.Bytes.{diagnosed};
ghost use Rattle.table.specs.Layout.{seats};
ghost use Rattle.table.specs.Block.{farm_of, Whole};
ghost use Rattle.decide.specs.SiteSheet.{site_sheet};
ghost use Rattle.closing.specs.Did.{RowsFit, pushed_all, Did};
ghost use Rattle.site.specs.Site.{Sited};
ghost use Rattle.diagnostic.specs.Codes.{target_code, replies_by};

use closing::say;
use kinds::{FarmNo, Reply, Site};
use payload::Ends;
use plan::Plan;
use rowwork::refuse;
use sheet::find;

// "8002 with 00"; numbers, as decide::ACCEPTED is.
const GOES_ON: u8 = 0x00;

// "row not active or source not its address: 8003 with 02, close (ours); target not one of this farm's: 03; not reachable: 06"
const WRONG_SOURCE: u8 = 0x02;

const NO_TARGET: u8 = 0x03;

const NOT_REACHABLE: u8 = 0x06;

// A target's flag where it can be reached.
const REACHABLE: u8 = 1;

// What a message to this target gets.
#[tactic(auto, unfolding(model::specs::FarmSheet::farm_sheet))]
fn code_for(s: &[u8], f: FarmNo, target: u16) -> u8
    requires { GoodSheet s.now }
    ensures { result ≡ target_code ((farm_sheet s.now f.0).target target) }
{
    let Some(k) = find::find_target(s, target) else {
        return NO_TARGET;
    };
    if k.farm != f {
        return NO_TARGET;
    }
    if k.flag == REACHABLE {
        return GOES_ON;
    }
    NOT_REACHABLE
}

// "Both replies: target, source, code." What is handed on is acknowledged first.
fn reply(p: &mut Plan, site: Site, seat: usize, e: Ends, code: u8)
    requires { (seat < seats) × RowsFit site }
    ensures { p.new ≡ pushed_all p.old (replies_by (site_sheet site) seat e code) }
{
    if code == GOES_ON {
        say::say(p, site, seat, Reply::Ack(e.target, e.source, code));
        say::say(p, site, seat, Reply::HandOn);
        return;
    }
    say::say(
        p,
        site,
        seat,
        Reply::DiagnosticNack(e.target, e.source, code),
    );
}

pub fn diagnose(b: &mut [u8], p: &mut Plan, s: &[u8], f: FarmNo, site: Site, seat: usize, e: Ends)
    requires { (seat < seats) × Sited s.now f.0 site × Whole b.old }
    ensures { Did p.old b.new p.new (diagnosed (farm_sheet s.now f.0) seat e (farm_of b.old)) }
{
    if decide::active_as(b, seat, e.source) {
        let code = code_for(s, f, e.target);
        reply(p, site, seat, e, code);
        return;
    }
    let nack = Reply::DiagnosticNack(e.target, e.source, WRONG_SOURCE);
    refuse::refuse(b, p, site, seat, nack, true);
}
