// Bytes from a row, on the table, in the row's room and with the output sheet.
#![tactic(auto)]

ghost use Rattle.std.specs.Prelude.{◌≡◌, false, ◌<◌, ◌≤◌, ◌+◌, ◌*◌, length};
ghost use Rattle.sheet.specs.Sheet.{most_rows};
ghost use Rattle.sheet.specs.Rows.{rows_owned};
ghost use Rattle.model.specs.Row.{row_at, is_waiting};
ghost use Rattle.model.specs.Table.{assembling_size};
ghost use Rattle.outsheet.specs.Contracts.{least_output};
ghost use Rattle.table.specs.Block.{farm_of};
ghost use Rattle.site.specs.Site.{Sited};
ghost use Rattle.lent.specs.Lent.{block, room_size};
ghost use Rattle.serve.specs.Ready.{Ready};
ghost use Rattle.serve_bytes.specs.Heard.{HeardAt, HeardOut};

use farm_bytes::Heard;
use kinds::{FarmNo, Site};
use lent::Answer;
use plan::Plan;
use sheet::rows;
use std::ops::Range;
use table::block_of;

// "2,048 for each of 16 rows"
const ROOM: usize = 2048;

// Where the room of a farm's seat stands in the assembling buffer.
fn room_of(site: Site, seat: usize) -> Range<usize>
    requires { site.first + seat < most_rows }
    ensures { (result.start ≡ (site.first + seat) * room_size) × (result.end ≡ (site.first + seat) * room_size + room_size) }
{
    let a = (octets::wide(site.first) + seat) * ROOM;
    a..a + ROOM
}

// The farm's block and the row's room are lent alone: "stored at its place in its row's 2,048; nothing else there ever changes".
fn bytes_at(
    t: &mut [u8],
    p: &mut Plan,
    m: &mut [u8],
    s: &[u8],
    f: FarmNo,
    site: Site,
    seat: usize,
    input: &[u8],
) -> Heard
    requires { Ready s.now t.old f.0 × Sited s.now f.0 site × (seat < rows_owned s.now f.0) × (is_waiting (row_at (farm_of (block t.old f.0)).rows seat) ≡ false) × (length m.old ≡ assembling_size) }
    ensures { HeardAt s.now f.0 seat input.now p.old t.old m.old p.new t.new m.new result }
{
    farm_bytes::bytes(
        &mut t[block_of(f)],
        p,
        &mut m[room_of(site, seat)],
        s,
        f,
        site,
        seat,
        input,
    )
}

// The payload that is handed on is still in the row's room: the output sheet is written from there.
pub fn take(
    s: &[u8],
    t: &mut [u8],
    out: &mut [u8],
    m: &mut [u8],
    f: FarmNo,
    seat: usize,
    input: &[u8],
) -> Answer
    requires { Ready s.now t.old f.0 × (seat < rows_owned s.now f.0) × (is_waiting (row_at (farm_of (block t.old f.0)).rows seat) ≡ false) × (length m.old ≡ assembling_size) × (least_output ≤ length out.old) }
    ensures { HeardOut s.now f.0 seat input.now t.old out.old m.old t.new out.new m.new result }
{
    let site = site::site_of(s, f);
    let mut p = Plan::new();
    let heard = bytes_at(t, &mut p, m, s, f, site, seat, input);
    let a = room_of(site, seat).start;
    let e = a + heard.long;
    finish::finish(out, &p, &m[a..e], finish::NO_ROW, heard.count)
}
