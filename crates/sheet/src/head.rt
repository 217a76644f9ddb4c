// The header's counts, and where the sections stand that they say. Each is a number of its own: one function with a place would name none.
ghost use Rattle.std.specs.Prelude.{◌≡◌, ◌≤◌, length};
ghost use Rattle.sheet.specs.Sheet.{head_size, farm_count, tester_count, target_count, testers_at, targets_at};

use crate::{FARM_SIZE, HEAD_SIZE, KNOWN_SIZE};

pub fn farm_count(s: &[u8]) -> usize
    requires { head_size ≤ length s.now }
    ensures { result ≡ farm_count s.now }
{
    usize::from(octets::read16(s, 0))
}

pub fn tester_count(s: &[u8]) -> usize
    requires { head_size ≤ length s.now }
    ensures { result ≡ tester_count s.now }
{
    usize::from(octets::read16(s, 2))
}

pub fn target_count(s: &[u8]) -> usize
    requires { head_size ≤ length s.now }
    ensures { result ≡ target_count s.now }
{
    usize::from(octets::read16(s, 4))
}

pub fn testers_at(s: &[u8]) -> usize
    requires { head_size ≤ length s.now }
    ensures { result ≡ testers_at s.now }
{
    HEAD_SIZE + farm_count(s) * FARM_SIZE
}

pub fn targets_at(s: &[u8]) -> usize
    requires { head_size ≤ length s.now }
    ensures { result ≡ targets_at s.now }
{
    testers_at(s) + tester_count(s) * KNOWN_SIZE
}
