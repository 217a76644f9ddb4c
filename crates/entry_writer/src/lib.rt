// One entry of the output sheet, written from an item of the plan and at most one long payload. Each byte is written once.
#![tactic(auto)]

ghost use Rattle.std.specs.Prelude.{◌≡◌, ◌+◌, ◌≤◌, ◌<◌, length, ◌∷◌};
ghost use Rattle.octets.specs.Put.{put_at};
ghost use Rattle.octets.specs.Numbers.{be16};
ghost use Rattle.layout.specs.Layout.{message_bytes};
ghost use Rattle.outsheet.specs.Sheet.{entry};
ghost use Rattle.outsheet.specs.Replies.{send, identity_of, entry_of};
ghost use Rattle.outsheet.specs.Contracts.{Fits, Entered};

use kinds::{Item, Reply, RowNo};

// The kinds of an entry: bytes that go out, each named where it is written, so that an enum would only be turned back into them.
const SEND: u8 = 1;

const CLOSE: u8 = 2;

const HAND_ON: u8 = 3;

// The bytes before an entry's own; before the first offset there are as many.
pub const HEAD: usize = 4;

// The bytes of a message before its user data, of an identity, and of the farm's record that it is made from.
const MESSAGE: usize = 12;

const IDENTITY: usize = 40;

const RECORD: usize = 33;

// The four bytes before an entry's own.
fn put_head(out: &mut [u8], at: usize, row: RowNo, kind: u8, n: usize)
    requires { (n < 65536) × (at + 4 ≤ length out.old) }
    ensures { out.new ≡ put_at out.old at (row.0 ∷ kind ∷ be16 n) }
{
    let size = (n as u16).to_be_bytes();
    let head = [row.0, kind, size[0], size[1]];
    octets::put(out, at, &head);
}

// An entry with these bytes. The answer of each of these functions is the place after the entry.
fn put_bytes(out: &mut [u8], at: usize, row: RowNo, kind: u8, bytes: &[u8]) -> usize
    requires { Fits (entry row.0 kind bytes.now) at (length out.old) }
    ensures { Entered (entry row.0 kind bytes.now) out.old out.new at result }
{
    let n = bytes.len();
    put_head(out, at, row, kind, n);
    octets::put(out, at + HEAD, bytes);
    at + (HEAD + n)
}

// An entry that sends a controller's message.
fn put_message(
    out: &mut [u8],
    at: usize,
    row: RowNo,
    version: u8,
    controller: u16,
    tester: u16,
    user: &[u8],
) -> usize
    requires { Fits (entry row.0 send (message_bytes version controller tester user.now)) at (length out.old) }
    ensures { Entered (entry row.0 send (message_bytes version controller tester user.now)) out.old out.new at result }
{
    let n = MESSAGE + user.len();
    put_head(out, at, row, SEND, n);
    long_replies::put_message(out, at + HEAD, version, controller, tester, user);
    at + (HEAD + n)
}

// An entry that sends the identity of the farm with this record, or nothing where it is no record.
fn put_identity(out: &mut [u8], at: usize, row: RowNo, version: u8, farm: &[u8]) -> usize
    requires { Fits (entry row.0 send (identity_of version farm.now)) at (length out.old) }
    ensures { Entered (entry row.0 send (identity_of version farm.now)) out.old out.new at result }
{
    if farm.len() == RECORD {
        put_head(out, at, row, SEND, IDENTITY);
        long_replies::put_identity(out, at + HEAD, version, farm);
        at + (HEAD + IDENTITY)
    } else {
        put_head(out, at, row, SEND, 0);
        at + HEAD
    }
}

// The entry that an item says.
pub fn put_entry(out: &mut [u8], at: usize, it: Item, long: &[u8]) -> usize
    requires { Fits (entry_of long.now it) at (length out.old) }
    ensures { Entered (entry_of long.now it) out.old out.new at result }
{
    let Item {
        row,
        version: v,
        reply,
    } = it;
    match reply {
        Reply::Nack(c) => put_bytes(out, at, row, SEND, &short_replies::nack(v, c)),
        Reply::Identity => put_identity(out, at, row, v, long),
        Reply::Activation(a, e, c) => put_bytes(
            out,
            at,
            row,
            SEND,
            &short_replies::activation(v, a, e, c),
        ),
        Reply::AliveCheck => put_bytes(out, at, row, SEND, &short_replies::alive_check(v)),
        Reply::Status(q, o) => put_bytes(out, at, row, SEND, &short_replies::status(v, q, o)),
        Reply::PowerMode(m) => put_bytes(out, at, row, SEND, &short_replies::power_mode(v, m)),
        Reply::Message(k, t) => put_message(out, at, row, v, k, t, long),
        Reply::Ack(t, s, c) => put_bytes(out, at, row, SEND, &short_replies::ack(v, t, s, c)),
        Reply::DiagnosticNack(t, s, c) => put_bytes(
            out,
            at,
            row,
            SEND,
            &short_replies::diagnostic_nack(v, t, s, c),
        ),
        Reply::Close => put_bytes(out, at, row, CLOSE, &[]),
        Reply::HandOn => put_bytes(out, at, row, HAND_ON, long),
    }
}
