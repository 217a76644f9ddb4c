// "After any change the line is settled": the head is decided afresh, and where it has its answer the next comes up and is decided too.
ghost use Rattle.std.specs.Prelude.{◌≡◌, ◌<◌, length, drop};
ghost use Rattle.model.specs.Farm.{and_then};
ghost use Rattle.model.specs.Line.{advanced, settle_line, settle};
ghost use Rattle.table.specs.Block.{farm_of, Whole};
ghost use Rattle.decide.specs.SiteSheet.{site_sheet};
ghost use Rattle.closing.specs.Did.{RowsFit, Seated, Did};

use kinds::Site;
use plan::Plan;
use rowwork::answer;

#[cycle(advance_line_decide_head)]
fn decide_head(b: &mut [u8], p: &mut Plan, site: Site)
    requires { Seated (farm_of b.old).line × RowsFit site × Whole b.old }
    ensures { Did p.old b.new p.new (settle_line (site_sheet site) (farm_of b.old).line (farm_of b.old)) }
{
    let Some(head) = table_line::head(b) else {
        return;
    };
    let v = decide::head_verdict(b, site, head);
    if decide::is_pending(v) {
        return;
    }
    let a = decide::wanted(b, head);
    answer::act(b, p, site, head, a, v);
    advance_line(b, p, site);
}

// "Settling one waiter brings up the next, whose settling may do the same."
#[cycle(advance_line_decide_head)]
fn advance_line(b: &mut [u8], p: &mut Plan, site: Site)
    requires { (0 < length (farm_of b.old).line) × Seated (farm_of b.old).line × RowsFit site × Whole b.old }
    ensures { Did p.old b.new p.new (and_then (advanced (site_sheet site) (drop 1 (farm_of b.old).line) (farm_of b.old)) (settle_line (site_sheet site) (drop 1 (farm_of b.old).line))) }
{
    alive::advance(b, p, site);
    decide_head(b, p, site);
}

pub fn settle(b: &mut [u8], p: &mut Plan, site: Site)
    requires { Seated (farm_of b.old).line × RowsFit site × Whole b.old }
    ensures { Did p.old b.new p.new (settle (site_sheet site) (farm_of b.old)) }
{
    decide_head(b, p, site);
}
