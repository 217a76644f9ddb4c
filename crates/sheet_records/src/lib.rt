// The rules of a section's records, one pass over them from a place on; the first broken rule ends it.
#![tactic(auto)]

ghost use Rattle.std.specs.Prelude.{◌≡◌, ◌+◌, ◌*◌, ◌≤◌, length};
ghost use Rattle.octets.specs.Says.{Says};
ghost use Rattle.sheet.specs.Sheet.{head_size, farm_size, known_size};
ghost use Rattle.sheet.specs.Rules.{GoodFarms, GoodSection};

use sheet::{FARM_SIZE, KNOWN_SIZE};

const MOST_QUOTA: u8 = 8;

const MOST_MODE: u8 = 2;

const MOST_ROWS: u8 = 16;

// n farms. What is left of the rows is kept, and not the rows so far: nothing can wrap.
pub fn farms_ok(s: &[u8], at: usize, n: usize) -> bool
    requires { (at ≡ head_size) × (at + n * farm_size ≤ length s.now) }
    ensures { Says result (GoodFarms s.now n) }
{
    let mut left = MOST_ROWS;
    for i in 0..n {
        let p = at + i * FARM_SIZE;
        let entity = octets::read16(s, p);
        let q = s[p + 2];
        let mode = s[p + 3];
        if entity < 1 || q < 1 || MOST_QUOTA < q || MOST_MODE < mode {
            return false;
        }
        if left < q + 1 {
            return false;
        }
        left -= q + 1;
    }
    true
}

// n testers or targets. No address is 0 and they ascend: each is above the one before it, the first above 0.
pub fn section_ok(s: &[u8], at: usize, n: usize, farms: usize, most: u8) -> bool
    requires { at + n * known_size ≤ length s.now }
    ensures { Says result (GoodSection s.now at n farms most) }
{
    let mut last = 0;
    for i in 0..n {
        let p = at + i * KNOWN_SIZE;
        let address = octets::read16(s, p);
        let farm = usize::from(s[p + 2]);
        let flag = s[p + 3];
        if address <= last || farms <= farm || most < flag {
            return false;
        }
        last = address;
    }
    true
}
