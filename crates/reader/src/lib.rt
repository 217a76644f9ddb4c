// The farm sheet is walked by a reader: the lent bytes, and the position at which it stands. It goes from section to section, so
// each begins where the one before it ends. The functions over it are thin, and each is proved from the contracts alone: no proof
// stands here. What is asked of a section's records stands in sheet_records, over plain parameters.
#![tactic(auto)]

ghost use Rattle.std.specs.Prelude.{◌≡◌, ◌+◌, ◌*◌, ◌≤◌, ◌<◌, ◌^◌, length};
ghost use Rattle.octets.specs.Says.{Says};
ghost use Rattle.sheet.specs.Sheet.{head_size, farm_size, known_size};
ghost use Rattle.sheet.specs.Rules.{GoodFarms, GoodSection};
ghost use Rattle.reader.specs.Sections.{GoodSections};

use sheet::{FARM_SIZE, HEAD_SIZE, KNOWN_SIZE};

#[derive(Clone, Copy)]
pub struct Reader<'a> {
    pub bytes: &'a [u8],
    pub at: usize,
}

// A tester's fourth byte is zero, a target's is reachable 0 or 1.
const TESTER_FLAG: u8 = 0;

const TARGET_FLAG: u8 = 1;

impl<'a> Reader<'a> {
    pub fn place(bytes: &'a [u8], at: usize) -> Self
        ensures { (result.bytes ≡ bytes.entry) × (result.at ≡ at) }
    {
        Self { bytes, at }
    }

    // Past n records of one size: where the next section begins.
    pub fn past(self, n: usize, size: usize) -> Self
        requires { self.at + n * size < 2 ^ 64 }
        ensures { (result.bytes ≡ self.entry.bytes) × (result.at ≡ self.entry.at + n * size) }
    {
        Self {
            at: self.at + n * size,
            ..self
        }
    }

    // The rules of n farms, of which the first stands at the position.
    pub fn farms_here(self, n: usize) -> bool
        requires { (self.at ≡ head_size) × (self.at + n * farm_size ≤ length self.bytes.now) }
        ensures { Says result (GoodFarms self.entry.bytes.now n) }
    {
        sheet_records::farms_ok(self.bytes, self.at, n)
    }

    // The rules of n testers or targets, of which the first stands at the position.
    pub fn section_here(self, n: usize, farms: usize, most: u8) -> bool
        requires { self.at + n * known_size ≤ length self.bytes.now }
        ensures { Says result (GoodSection self.entry.bytes.now self.entry.at n farms most) }
    {
        sheet_records::section_ok(self.bytes, self.at, n, farms, most)
    }
}

// The walk from the header's end to the last section's, with plain parameters: what every other caller uses.
pub fn sections_ok(s: &[u8], farms: usize, testers: usize, targets: usize) -> bool
    requires { head_size + farms * farm_size + testers * known_size + targets * known_size ≤ length s.now }
    ensures { Says result (GoodSections s.now farms testers targets) }
{
    let at_farms = Reader::place(s, HEAD_SIZE);
    let at_testers = at_farms.past(farms, FARM_SIZE);
    let at_targets = at_testers.past(testers, KNOWN_SIZE);
    at_farms.farms_here(farms)
        && at_testers.section_here(testers, farms, TESTER_FLAG)
        && at_targets.section_here(targets, farms, TARGET_FLAG)
}
