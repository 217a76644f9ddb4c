// "bytes from a row".
#![tactic(auto)]

ghost use Rattle.model.specs.Table.{bytes_from};
ghost use Rattle.lent.specs.Served.{memory, answered, CallServed};

use kinds::{Refusal, RowNo};
use lent::Answer;
use serve::at;
use sheet::rows;
use table::TABLE;

pub fn bytes(
    s: &[u8],
    t: &mut [u8; TABLE],
    out: &mut [u8],
    m: &mut [u8],
    row: RowNo,
    input: &[u8],
) -> Answer
    ensures { CallServed s.now (bytes_from row.0 input.now) result (memory t.old out.old m.old) (memory t.new out.new m.new) }
{
    finish::answered(try_bytes(s, t, out, m, row, input))
}

// Refusals "6 | row not open" and "7 | bytes for a waiting row, even none", then the bytes are taken.
fn try_bytes(
    s: &[u8],
    t: &mut [u8; TABLE],
    out: &mut [u8],
    m: &mut [u8],
    row: RowNo,
    input: &[u8],
) -> Result<Answer, Refusal>
    ensures { CallServed s.now (bytes_from row.0 input.now) (answered result) (memory t.old out.old m.old) (memory t.new out.new m.new) }
{
    gate::refusal(s, t, out, m)?;
    let (f, k) = rows::owner_of(s, row).ok_or(Refusal::RowNotOpen)?;
    let seat = octets::wide(k);
    if !at::is_open(t, f, seat) {
        return Err(Refusal::RowNotOpen);
    }
    if at::is_waiting(t, f, seat) {
        return Err(Refusal::RowWaits);
    }
    Ok(serve_bytes::take(s, t, out, m, f, seat, input))
}
