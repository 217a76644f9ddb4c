// A tick of all farms, on the table and with the output sheet: "A tick serves the farms in order".
#![tactic(auto)]

ghost use Rattle.std.specs.Prelude.{◌≡◌, [], ◌<◌, ◌≤◌, length};
ghost use Rattle.sheet.specs.Sheet.{most_farms, farm_count};
ghost use Rattle.model.specs.Move.{ticked};
ghost use Rattle.model.specs.Table.{tick};
ghost use Rattle.outsheet.specs.Contracts.{least_output};
ghost use Rattle.table.specs.Layout.{table_size};
ghost use Rattle.table.specs.Block.{farm_of, Whole};
ghost use Rattle.decide.specs.SiteSheet.{site_sheet};
ghost use Rattle.closing.specs.Did.{RowsFit, Seated};
ghost use Rattle.lent.specs.Lent.{block};
ghost use Rattle.serve.specs.Ready.{AllReady};
ghost use Rattle.serve.specs.Moved.{DidAt};
ghost use Rattle.serve_tick.specs.Ticked.{TickedTo, TickedOut};

use kinds::{FarmNo, Site};
use lent::Answer;
use plan::Plan;
use sheet::head;
use table::block_of;

// The farm's block is lent alone.
fn tick_at(t: &mut [u8], p: &mut Plan, f: FarmNo, site: Site)
    requires { (f.0 < most_farms) × (length t.old ≡ table_size) × Seated (farm_of (block t.old f.0)).line × RowsFit site × Whole (block t.old f.0) }
    ensures { DidAt f.0 (ticked (site_sheet site) (farm_of (block t.old f.0))) p.old t.old p.new t.new }
{
    farm_tick::tick(&mut t[block_of(f)], p, site);
}

// The farms of the sheet, one after the other.
fn tick_farms(s: &[u8], t: &mut [u8], p: &mut Plan)
    requires { AllReady s.now t.old × (p.old ≡ []) }
    ensures { TickedTo s.now t.old (farm_count s.now) p.new t.new }
{
    let n = head::farm_count(s);
    for i in 0..n {
        let f = FarmNo(i as u8);
        let site = site::site_of(s, f);
        tick_at(t, p, f, site);
    }
}

pub fn tick_all(s: &[u8], t: &mut [u8], out: &mut [u8]) -> Answer
    requires { AllReady s.now t.old × (least_output ≤ length out.old) }
    ensures { TickedOut s.now t.old out.old t.new out.new result }
{
    let mut p = Plan::new();
    tick_farms(s, t, &mut p);
    finish::finish_short(out, &p, finish::NO_ROW)
}
