// Rows that close from outside: "peer closed", "link of a farm lost".
#![tactic(auto)]

ghost use Rattle.model.specs.Table.{peer_closed_on, link_lost_of};
ghost use Rattle.lent.specs.Served.{memory, answered, CallServed};

use kinds::{FarmNo, Refusal, RowNo};
use lent::Answer;
use serve::at;
use sheet::{farms, rows};
use table::TABLE;

// "Peer closed gives one close for that row."
pub fn peer_closed(s: &[u8], t: &mut [u8; TABLE], out: &mut [u8], m: &[u8], row: RowNo) -> Answer
    ensures { CallServed s.now (peer_closed_on row.0) result (memory t.old out.old m.now) (memory t.new out.new m.now) }
{
    finish::answered(try_peer_closed(s, t, out, m, row))
}

fn try_peer_closed(
    s: &[u8],
    t: &mut [u8; TABLE],
    out: &mut [u8],
    m: &[u8],
    row: RowNo,
) -> Result<Answer, Refusal>
    ensures { CallServed s.now (peer_closed_on row.0) (answered result) (memory t.old out.old m.now) (memory t.new out.new m.now) }
{
    gate::refusal(s, t, out, m)?;
    let (f, k) = rows::owner_of(s, row).ok_or(Refusal::RowNotOpen)?;
    let seat = octets::wide(k);
    if !at::is_open(t, f, seat) {
        return Err(Refusal::RowNotOpen);
    }
    Ok(serve::closed::close_row(s, t, out, f, seat))
}

// "Link lost: one close per open row, lowest first."
pub fn link_lost(s: &[u8], t: &mut [u8; TABLE], out: &mut [u8], m: &[u8], f: FarmNo) -> Answer
    ensures { CallServed s.now (link_lost_of f.0) result (memory t.old out.old m.now) (memory t.new out.new m.now) }
{
    finish::answered(try_link_lost(s, t, out, m, f))
}

fn try_link_lost(
    s: &[u8],
    t: &mut [u8; TABLE],
    out: &mut [u8],
    m: &[u8],
    f: FarmNo,
) -> Result<Answer, Refusal>
    ensures { CallServed s.now (link_lost_of f.0) (answered result) (memory t.old out.old m.now) (memory t.new out.new m.now) }
{
    gate::refusal(s, t, out, m)?;
    if !farms::has_farm(s, f) {
        return Err(Refusal::FarmUnknown);
    }
    Ok(serve::closed::close_farm(s, t, out, f))
}
