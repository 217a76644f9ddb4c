// What the sheet says of a farm.
ghost use Rattle.std.specs.Prelude.{◌≡◌, ◌+◌, ◌≤◌, ltb, length};
ghost use Rattle.sheet.specs.Sheet.{head_size, farm_count, farm_at, entity_of, quota_of, mode_of, farm_record};

use crate::head::farm_count;
use crate::{FARM_SIZE, HEAD_SIZE};
use kinds::FarmNo;

// Refusal 5 is where this says no.
pub fn has_farm(s: &[u8], f: FarmNo) -> bool
    requires { head_size ≤ length s.now }
    ensures { result ≡ ltb f.0 (farm_count s.now) }
{
    usize::from(f.0) < farm_count(s)
}

fn place(f: FarmNo) -> usize
    ensures { result ≡ farm_at f.0 }
{
    HEAD_SIZE + usize::from(f.0) * FARM_SIZE
}

pub fn entity(s: &[u8], f: FarmNo) -> u16
    requires { farm_at (f.0 + 1) ≤ length s.now }
    ensures { result ≡ entity_of s.now f.0 }
{
    octets::read16(s, place(f))
}

pub fn quota(s: &[u8], f: FarmNo) -> u8
    requires { farm_at (f.0 + 1) ≤ length s.now }
    ensures { result ≡ quota_of s.now f.0 }
{
    s[place(f) + 2]
}

pub fn power_mode(s: &[u8], f: FarmNo) -> u8
    requires { farm_at (f.0 + 1) ≤ length s.now }
    ensures { result ≡ mode_of s.now f.0 }
{
    s[place(f) + 3]
}

// The farm's own bytes, lent on: VIN, EID and GID are read from there.
pub fn record_of(s: &[u8], f: FarmNo) -> &[u8]
    requires { farm_at (f.0 + 1) ≤ length s.now }
    ensures { result.now ≡ farm_record s.now f.0 }
{
    let at = place(f);
    &s[at..at + FARM_SIZE]
}
