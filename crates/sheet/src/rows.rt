// Whose row is whose.
ghost use Rattle.std.specs.Prelude.{◌≡◌, ◌+◌, ◌≤◌, ◌<◌, length};
ghost use Rattle.sheet.specs.Sheet.{farm_at, testers_at};
ghost use Rattle.sheet.specs.Rows.{first_row, rows_owned, rows_in, owner_of};

use crate::head::farm_count;
use crate::{FARM_SIZE, HEAD_SIZE};
use kinds::{FarmNo, RowNo};

// How many rows the farm i has; as an index, so that nothing can wrap.
fn rows_owned(s: &[u8], i: usize) -> usize
    requires { farm_at (i + 1) ≤ length s.now }
    ensures { result ≡ rows_owned s.now i }
{
    usize::from(s[HEAD_SIZE + i * FARM_SIZE + 2]) + 1
}

// The rows of the first n farms. A count has two bytes, so n is small, and the sum cannot wrap.
fn rows_before(s: &[u8], n: usize) -> usize
    requires { (farm_at n ≤ length s.now) × (n < 65536) }
    ensures { result ≡ first_row s.now n }
{
    (0..n).map(|i| rows_owned(s, i)).sum()
}

// As an index: of a good sheet it is a row's number, and the caller, who knows that the sheet is good, makes it one.
pub fn first_row(s: &[u8], f: FarmNo) -> usize
    requires { farm_at f.0 ≤ length s.now }
    ensures { result ≡ first_row s.now f.0 }
{
    rows_before(s, usize::from(f.0))
}

pub fn all_rows(s: &[u8]) -> usize
    requires { testers_at s.now ≤ length s.now }
    ensures { result ≡ rows_in s.now }
{
    rows_before(s, farm_count(s))
}

// The farm that owns a row, and the row's seat within it, 0 to q; none for a row beyond the sheet's.
pub fn owner_of(s: &[u8], row: RowNo) -> Option<(FarmNo, u8)>
    requires { testers_at s.now ≤ length s.now }
    ensures { result ≡ owner_of s.now row.0 }
{
    let mut left = usize::from(row.0);
    for i in 0..farm_count(s) {
        let own = rows_owned(s, i);
        if left < own {
            return Some((FarmNo(i as u8), left as u8));
        }
        left -= own;
    }
    None
}
