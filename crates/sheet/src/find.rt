// Looking a tester or a target up by its address. That there is nobody is an ordinary answer.
ghost use Rattle.std.specs.Prelude.{◌≡◌, ◌+◌, ◌*◌, ◌≤◌, length};
ghost use Rattle.octets.specs.Parts.{part};
ghost use Rattle.sheet.specs.Sheet.{known_size, known_from, knowns_at, end_at, testers_of, targets_of};
ghost use Rattle.sheet.specs.Find.{lookup};

use crate::KNOWN_SIZE;
use crate::head::{target_count, targets_at, tester_count, testers_at};
use kinds::FarmNo;

// A tester or a target. The flag is a target's reachable; a tester's is 0.
#[derive(Clone, Copy)]
pub struct Known {
    pub address: u16,
    pub farm: FarmNo,
    pub flag: u8,
}

// The four bytes at a place.
fn known_at(s: &[u8], p: usize) -> Known
    requires { p + known_size ≤ length s.now }
    ensures { result ≡ known_from (part s.now p known_size) }
{
    Known {
        address: octets::read16(s, p),
        farm: FarmNo(s[p + 2]),
        flag: s[p + 3],
    }
}

// The one search, for both sections: n of them from the place at on.
fn lookup_in(s: &[u8], at: usize, n: usize, address: u16) -> Option<Known>
    requires { at + n * known_size ≤ length s.now }
    ensures { result ≡ lookup address (knowns_at s.now at n) }
{
    (0..n)
        .map(|i| known_at(s, at + i * KNOWN_SIZE))
        .find(|known| known.address == address)
}

// The whole sheet's length is asked of both. A search by halves (request R-3) will ask besides that the addresses ascend, which its
// callers have tested too.
pub fn find_tester(s: &[u8], address: u16) -> Option<Known>
    requires { end_at s.now ≤ length s.now }
    ensures { result ≡ lookup address (testers_of s.now) }
{
    lookup_in(s, testers_at(s), tester_count(s), address)
}

pub fn find_target(s: &[u8], address: u16) -> Option<Known>
    requires { end_at s.now ≤ length s.now }
    ensures { result ≡ lookup address (targets_of s.now) }
{
    lookup_in(s, targets_at(s), target_count(s), address)
}
