// The output sheet, written from a plan and at most one long payload. Each byte is written once.
#![tactic(auto)]

ghost use Rattle.std.specs.Prelude.{◌≡◌, length};
ghost use Rattle.outsheet.specs.Sheet.{sheet_of};
ghost use Rattle.outsheet.specs.Replies.{entries_of};
ghost use Rattle.outsheet.specs.Contracts.{Room, Laid, Wrote};

use entry_writer::HEAD;
use plan::Plan;

// Each entry and its offset; the answer is the total length.
fn put_entries(out: &mut [u8], p: &Plan, long: &[u8]) -> usize
    requires { Room p.now long.now (length out.old) }
    ensures { Laid (entries_of long.now p.now) out.old out.new result }
{
    let n = p.len();
    let mut at = HEAD + 2 * n;
    for i in 0..n {
        octets::write16(out, HEAD + 2 * i, at as u16);
        at = entry_writer::put_entry(out, at, p.item(i), long);
    }
    at
}

// The whole sheet; the answer is its length.
pub fn write_sheet(out: &mut [u8], p: &Plan, long: &[u8]) -> usize
    requires { Room p.now long.now (length out.old) }
    ensures { Wrote (sheet_of (entries_of long.now p.now)) out.old out.new result }
{
    let total = put_entries(out, p, long);
    octets::write16(out, 0, p.len() as u16);
    octets::write16(out, 2, total as u16);
    total
}
