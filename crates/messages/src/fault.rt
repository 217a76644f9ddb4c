// A header judged wrong: "A NACK is type 0000 with the code as its one byte."
ghost use Rattle.std.specs.Prelude.{◌<◌};
ghost use Rattle.model.specs.Bytes.{faulted};
ghost use Rattle.table.specs.Layout.{seats};
ghost use Rattle.table.specs.Block.{farm_of, Whole};
ghost use Rattle.decide.specs.SiteSheet.{site_sheet};
ghost use Rattle.closing.specs.Did.{RowsFit, Did};

use kinds::{Fault, Reply, Site};
use plan::Plan;
use rowwork::refuse;
use wire::header;

// Its NACK, and the close where the fault closes.
pub fn fault(b: &mut [u8], p: &mut Plan, site: Site, seat: usize, fault: Fault)
    requires { (seat < seats) × RowsFit site × Whole b.old }
    ensures { Did p.old b.new p.new (faulted (site_sheet site) seat fault (farm_of b.old)) }
{
    refuse::refuse(
        b,
        p,
        site,
        seat,
        Reply::Nack(header::code_of(fault)),
        header::closes_row(fault),
    );
}
