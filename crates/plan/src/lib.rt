// The plan of a call: the items that it is to say, one after another, at most so many. A caller speaks of items only; inside they stand in
// fixed bytes, a count and then eight bytes for each.
#![tactic(auto)]

ghost use Rattle.std.specs.Prelude.{◌≡◌, ◌+◌, ◌*◌, ◌≤◌, ◌<◌, [], ◌∷◌, length, get_or};
ghost use Rattle.plan.specs.Plan.{plan_room, item_size, tagged, item_image, reply_from, item_at, items_of, no_item, pushed_to, Said};

use kinds::{Item, Reply, RowNo};
use std::marker::Model;

// The most items of a plan, and the bytes of one.
const ROOM: u8 = 72;

const SIZE: usize = 8;

// The bytes of a plan; its count is one of them.
pub const PLAN: usize = 1 + ROOM as usize * SIZE;

// An item's eight bytes, from its numbers.
fn image(row: RowNo, version: u8, tag: u8, code: u8, a: u16, b: u16) -> [u8; SIZE]
    ensures { result ≡ row.0 ∷ version ∷ tagged tag code a b }
{
    let a = a.to_be_bytes();
    let b = b.to_be_bytes();
    [row.0, version, tag, code, a[0], a[1], b[0], b[1]]
}

// The tags are this crate's own; `reply_from` is the other way. A status has two bytes to keep, and an item has room for one code: the second
// is the upper byte of a number.
fn item_bytes(it: Item) -> [u8; SIZE]
    ensures { result ≡ item_image it }
{
    let Item {
        row,
        version,
        reply,
    } = it;
    match reply {
        Reply::Nack(c) => image(row, version, 0, c, 0, 0),
        Reply::Identity => image(row, version, 1, 0, 0, 0),
        Reply::Activation(a, e, c) => image(row, version, 2, c, a, e),
        Reply::AliveCheck => image(row, version, 3, 0, 0, 0),
        Reply::Status(q, o) => image(row, version, 4, q, u16::from_be_bytes([o, 0]), 0),
        Reply::PowerMode(m) => image(row, version, 5, m, 0, 0),
        Reply::Message(k, t) => image(row, version, 6, 0, k, t),
        Reply::Ack(t, s, c) => image(row, version, 7, c, t, s),
        Reply::DiagnosticNack(t, s, c) => image(row, version, 8, c, t, s),
        Reply::Close => image(row, version, 9, 0, 0, 0),
        Reply::HandOn => image(row, version, 10, 0, 0, 0),
    }
}

fn reply_from(tag: u8, code: u8, a: u16, b: u16) -> Reply
    ensures { result ≡ reply_from tag code a b }
{
    match tag {
        0 => Reply::Nack(code),
        1 => Reply::Identity,
        2 => Reply::Activation(a, b, code),
        3 => Reply::AliveCheck,
        4 => Reply::Status(code, a.to_be_bytes()[0]),
        5 => Reply::PowerMode(code),
        6 => Reply::Message(a, b),
        7 => Reply::Ack(a, b, code),
        8 => Reply::DiagnosticNack(a, b, code),
        10 => Reply::HandOn,
        _ => Reply::Close,
    }
}

// The item at a place of the bytes; past the count it is none of the plan's. It stands beside `Plan::item`, since it answers there too.
pub fn item_at(p: &[u8], i: usize) -> Item
    requires { 1 + (i + 1) * item_size ≤ length p.now }
    ensures { result ≡ item_at p.now i }
{
    let at = 1 + i * SIZE;
    let a = octets::read16(p, at + 4);
    let b = octets::read16(p, at + 6);
    Item {
        row: RowNo(p[at]),
        version: p[at + 1],
        reply: reply_from(p[at + 2], p[at + 3], a, b),
    }
}

// A contract speaks of the items alone.
#[derive(Drop)]
pub struct Plan {
    bytes: [u8; PLAN],
}

impl Model for Plan {
    ghost use Rattle.std.specs.Prelude.{List};
    ghost use Rattle.kinds.specs.declared.Item.{Item};
    ghost use Rattle.plan.specs.Plan.{items_of};

    ghost Value = { List Item };

    ghost view = { λ a. items_of a.bytes };
}

impl Plan {
    // A plan of no items.
    pub fn new() -> Self
        ensures { result ≡ [] }
    {
        Self { bytes: [0; PLAN] }
    }

    // The plan that any bytes say, whoever made them: a count past the room says no more than the room, a tag of no reply is a close.
    pub fn of_bytes(bytes: [u8; PLAN]) -> Self
        ensures { result ≡ items_of bytes }
    {
        Self { bytes }
    }

    // The bytes, which say these items.
    pub fn bytes(&self) -> &[u8; PLAN]
        ensures { Said result.now self.now }
    {
        &self.bytes
    }

    // The number of items: a count past the room says no more than the room.
    pub fn len(&self) -> usize
        ensures is { result ≡ length self.now }
        ensures few { result ≤ plan_room }
    {
        let n = self.bytes[0];
        usize::from(n.min(ROOM))
    }

    // The item at a place; past the count, what stands there is none of the plan's.
    pub fn item(&self, i: usize) -> Item
        requires { i < plan_room }
        ensures { i < length self.now → result ≡ get_or self.now i no_item }
    {
        item_at(&self.bytes, i)
    }

    // One more item, at the end. A full plan stays as it is.
    pub fn push(&mut self, it: Item)
        ensures { self.new ≡ pushed_to self.old it }
    {
        let n = self.bytes[0];
        if n < ROOM {
            let s = item_bytes(it);
            octets::put(&mut self.bytes, 1 + usize::from(n) * SIZE, &s);
            self.bytes[0] = n + 1;
        }
    }
}
