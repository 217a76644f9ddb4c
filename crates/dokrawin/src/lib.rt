// The calls for C, as a static library: include/dokrawin.h declares them. A slice is a pointer and its length, the table is a pointer to
// 852 bytes, an answer is a struct of four numbers. Each function is the gateway's call of that name and ensures the same.
#![tactic(auto)]

ghost use Rattle.std.specs.Prelude.{ℕ, ◌≡◌, List};
ghost use Rattle.model.specs.Table.{slot, connect_to, bytes_from, peer_closed_on, link_lost_of, tick, datagram_to, message_from};
ghost use Rattle.lent.specs.Lent.{lent_table};
ghost use Rattle.lent.specs.Served.{memory, CallServed, StartServed};
ghost use Rattle.dokrawin.specs.Meters.{meters_of};

use kinds::{FarmNo, Meters, RowNo};
use lent::Answer;
use table::TABLE;

#[unsafe(no_mangle)]
pub extern "C" fn dokrawin_start(
    sheet: &[u8],
    table: &mut [u8; TABLE],
    output: &mut [u8],
    assembling: &[u8],
) -> Answer
    ensures { StartServed sheet.now result (memory table.old output.old assembling.now) (memory table.new output.new assembling.now) }
{
    gateway::start(sheet, table, output, assembling)
}

#[unsafe(no_mangle)]
pub extern "C" fn dokrawin_connect(
    sheet: &[u8],
    table: &mut [u8; TABLE],
    output: &mut [u8],
    assembling: &[u8],
    farm: u8,
) -> Answer
    ensures { CallServed sheet.now (connect_to farm) result (memory table.old output.old assembling.now) (memory table.new output.new assembling.now) }
{
    gateway::connect(sheet, table, output, assembling, FarmNo(farm))
}

#[unsafe(no_mangle)]
pub extern "C" fn dokrawin_bytes(
    sheet: &[u8],
    table: &mut [u8; TABLE],
    output: &mut [u8],
    assembling: &mut [u8],
    row: u8,
    input: &[u8],
) -> Answer
    ensures { CallServed sheet.now (bytes_from row input.now) result (memory table.old output.old assembling.old) (memory table.new output.new assembling.new) }
{
    gateway::bytes(sheet, table, output, assembling, RowNo(row), input)
}

#[unsafe(no_mangle)]
pub extern "C" fn dokrawin_peer_closed(
    sheet: &[u8],
    table: &mut [u8; TABLE],
    output: &mut [u8],
    assembling: &[u8],
    row: u8,
) -> Answer
    ensures { CallServed sheet.now (peer_closed_on row) result (memory table.old output.old assembling.now) (memory table.new output.new assembling.now) }
{
    gateway::peer_closed(sheet, table, output, assembling, RowNo(row))
}

#[unsafe(no_mangle)]
pub extern "C" fn dokrawin_link_lost(
    sheet: &[u8],
    table: &mut [u8; TABLE],
    output: &mut [u8],
    assembling: &[u8],
    farm: u8,
) -> Answer
    ensures { CallServed sheet.now (link_lost_of farm) result (memory table.old output.old assembling.now) (memory table.new output.new assembling.now) }
{
    gateway::link_lost(sheet, table, output, assembling, FarmNo(farm))
}

#[unsafe(no_mangle)]
pub extern "C" fn dokrawin_tick(
    sheet: &[u8],
    table: &mut [u8; TABLE],
    output: &mut [u8],
    assembling: &[u8],
) -> Answer
    ensures { CallServed sheet.now tick result (memory table.old output.old assembling.now) (memory table.new output.new assembling.now) }
{
    gateway::tick(sheet, table, output, assembling)
}

#[unsafe(no_mangle)]
pub extern "C" fn dokrawin_datagram(
    sheet: &[u8],
    table: &[u8; TABLE],
    output: &mut [u8],
    assembling: &[u8],
    farm: u8,
    input: &[u8],
) -> Answer
    ensures { CallServed sheet.now (datagram_to farm input.now) result (memory table.now output.old assembling.now) (memory table.now output.new assembling.now) }
{
    gateway::datagram(sheet, table, output, assembling, FarmNo(farm), input)
}

#[unsafe(no_mangle)]
pub extern "C" fn dokrawin_controller_message(
    sheet: &[u8],
    table: &[u8; TABLE],
    output: &mut [u8],
    assembling: &[u8],
    farm: u8,
    controller: u16,
    tester: u16,
    user: &[u8],
) -> Answer
    ensures { CallServed sheet.now (message_from farm controller tester user.now) result (memory table.now output.old assembling.now) (memory table.now output.new assembling.now) }
{
    gateway::controller_message(
        sheet,
        table,
        output,
        assembling,
        FarmNo(farm),
        controller,
        tester,
        user,
    )
}

// The meters of a farm, for a support person: taken, finished, lost.
#[repr(C)]
#[derive(Clone, Copy)]
pub struct FarmMeters {
    pub taken: u32,
    pub finished: u32,
    pub lost: u32,
}

impl From<Meters> for FarmMeters {
    ghost from_gives = { λ m r. meters_of r ≡ m };

    fn from(m: Meters) -> FarmMeters {
        FarmMeters {
            taken: m.taken,
            finished: m.finished,
            lost: m.lost,
        }
    }
}

#[unsafe(no_mangle)]
pub extern "C" fn dokrawin_meters(table: &[u8; TABLE], farm: u8) -> FarmMeters
    ensures { (s m : List ℕ) → meters_of result ≡ (slot (lent_table s table.now m) farm).farm.meters }
{
    FarmMeters::from(gateway::meters(table, FarmNo(farm)))
}
