// Alive checks: "Starting one sets the clock to 0, clears the marks and sends 0007 (empty) to the asked rows, lowest first."
#![tactic(auto)]

ghost use Rattle.std.specs.Prelude.{◌<◌, length, drop};
ghost use Rattle.model.specs.Farm.{each_seat};
ghost use Rattle.model.specs.Line.{asked_if, asking, cleared, started, advanced};
ghost use Rattle.table.specs.Layout.{seats};
ghost use Rattle.table.specs.Block.{farm_of, Whole, Holds};
ghost use Rattle.decide.specs.SiteSheet.{site_sheet};
ghost use Rattle.closing.specs.Did.{RowsFit, Did};

use closing::say;
use kinds::{Check, Clock, Decision, Reply, Site};
use plan::Plan;
use table::SEATS;

fn ask_if(b: &[u8], p: &mut Plan, site: Site, check: Check, i: usize)
    requires { (i < seats) × RowsFit site × Whole b.now }
    ensures { Did p.old b.now p.new (asked_if (site_sheet site) check i (farm_of b.now)) }
{
    if decide::asks(b, check, i) {
        say::say(p, site, i, Reply::AliveCheck);
    }
}

pub fn ask(b: &[u8], p: &mut Plan, site: Site, check: Check)
    requires { RowsFit site × Whole b.now }
    ensures { Did p.old b.now p.new (each_seat (asked_if (site_sheet site) check) (farm_of b.now)) }
{
    for i in 0..SEATS {
        ask_if(b, p, site, check, i);
    }
}

// A request that has its answer asks nobody.
fn ask_by(b: &[u8], p: &mut Plan, site: Site, d: Decision)
    requires { RowsFit site × Whole b.now }
    ensures { Did p.old b.now p.new (asking (site_sheet site) d (farm_of b.now)) }
{
    match d {
        Decision::Now(_) => {}
        Decision::Ask(check) => ask(b, p, site, check),
    }
}

// "An empty line has clock 0 and no marks."
pub fn clear(b: &mut [u8])
    requires { Whole b.old }
    ensures { Holds b.new (cleared (farm_of b.old)) }
{
    table::clock::put_clock(b, Clock::fresh());
    let none = [false; SEATS];
    table::marks::put_marks(b, none);
}

// The line's head has just come up.
pub fn start(b: &mut [u8], p: &mut Plan, site: Site)
    requires { RowsFit site × Whole b.old }
    ensures { Did p.old b.new p.new (started (site_sheet site) (farm_of b.old)) }
{
    clear(b);
    let Some(head) = table_line::head(b) else {
        return;
    };
    let d = decide::rules_for(b, site, head);
    ask_by(b, p, site, d);
}

// The head leaves, and the next comes up.
pub fn advance(b: &mut [u8], p: &mut Plan, site: Site)
    requires { (0 < length (farm_of b.old).line) × RowsFit site × Whole b.old }
    ensures { Did p.old b.new p.new (advanced (site_sheet site) (drop 1 (farm_of b.old).line) (farm_of b.old)) }
{
    table_line::pop(b);
    start(b, p, site);
}
