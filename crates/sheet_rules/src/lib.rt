// Refusal 1: does the sheet keep every rule? It is asked on every call of the gateway: the header here, then one pass over each
// section, by the reader.
#![tactic(auto)]

ghost use Rattle.std.specs.Prelude.{◌≤◌, length};
ghost use Rattle.octets.specs.Says.{Says};
ghost use Rattle.sheet.specs.Sheet.{head_size};
ghost use Rattle.sheet.specs.Rules.{GoodHead, GoodSheet};

use sheet::{FARM_SIZE, HEAD_SIZE, KNOWN_SIZE, head};

const MOST_FARMS: usize = 4;

const MOST_TESTERS: usize = 32;

const MOST_TARGETS: usize = 64;

// Counts, offsets and length.
fn head_ok(s: &[u8]) -> bool
    requires { head_size ≤ length s.now }
    ensures { Says result (GoodHead s.now) }
{
    let farms = head::farm_count(s);
    let testers = head::tester_count(s);
    let targets = head::target_count(s);
    let a = HEAD_SIZE + farms * FARM_SIZE;
    let b = a + testers * KNOWN_SIZE;
    let end = b + targets * KNOWN_SIZE;
    (1..=MOST_FARMS).contains(&farms)
        && testers <= MOST_TESTERS
        && targets <= MOST_TARGETS
        && usize::from(octets::read16(s, 6)) == HEAD_SIZE
        && usize::from(octets::read16(s, 8)) == a
        && usize::from(octets::read16(s, 10)) == b
        && s.len() == end
}

pub fn sheet_ok(s: &[u8]) -> bool
    ensures { Says result (GoodSheet s.now) }
{
    HEAD_SIZE <= s.len()
        && head_ok(s)
        && reader::sections_ok(
            s,
            head::farm_count(s),
            head::tester_count(s),
            head::target_count(s),
        )
}
