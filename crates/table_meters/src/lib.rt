// "Per farm, u32, wrapping on purpose". An amount is given as header and payload bytes: their sum may not fit, and only the meter wraps.
#![tactic(auto)]

ghost use Rattle.std.specs.Prelude.{◌≡◌, ◌+◌, length};
ghost use Rattle.model.specs.Farm.{took_more, finished_more, lost_more, wrap, with_meters};
ghost use Rattle.table.specs.Layout.{meters_size, block_size};
ghost use Rattle.table.specs.Block.{meters_from, farm_of, Whole, Holds};

use kinds::Meters;
use table::{LINE, METERS};

// A meter goes up. The three below are a line each: a meter is a field, and no parameter names a field.
fn more(meter: u32, head: u32, payload: u32) -> u32
    ensures { result ≡ wrap (meter + (head + payload)) }
{
    meter.wrapping_add(head).wrapping_add(payload)
}

// "taken (bytes taken)"
pub fn took(m: Meters, head: u32, payload: u32) -> Meters
    ensures { result ≡ took_more (head + payload) m }
{
    Meters {
        taken: more(m.taken, head, payload),
        ..m
    }
}

// "finished (8 plus payload for each message wholly read or skipped; 8 for a header that closes)"
pub fn ended(m: Meters, head: u32, payload: u32) -> Meters
    ensures { result ≡ finished_more (head + payload) m }
{
    Meters {
        finished: more(m.finished, head, payload),
        ..m
    }
}

// "lost (bytes of an unfinished message when its row closes)"
pub fn lose(m: Meters, head: u32, payload: u32) -> Meters
    ensures { result ≡ lost_more (head + payload) m }
{
    Meters {
        lost: more(m.lost, head, payload),
        ..m
    }
}

fn read_meters(s: &[u8]) -> Meters
    requires { length s.now ≡ meters_size }
    ensures { result ≡ meters_from s.now }
{
    Meters {
        taken: octets::read32(s, 0),
        finished: octets::read32(s, 4),
        lost: octets::read32(s, 8),
    }
}

pub fn meters_at(b: &[u8]) -> Meters
    requires { length b.now ≡ block_size }
    ensures { result ≡ (farm_of b.now).meters }
{
    read_meters(&b[METERS..LINE])
}

pub fn put_meters(b: &mut [u8], m: Meters)
    requires { Whole b.old }
    ensures { Holds b.new (with_meters (farm_of b.old) m) }
{
    octets::write32(b, METERS, m.taken);
    octets::write32(b, METERS + 4, m.finished);
    octets::write32(b, METERS + 8, m.lost);
}
