// "a line of waiting rows": how many, then their seats, the head first; the places past the last are 0.
#![tactic(auto)]

ghost use Rattle.std.specs.Prelude.{◌≡◌, [], ◌∷◌, ◌++◌, ◌<◌, length, get_or, drop, slice_get};
ghost use Rattle.octets.specs.Put.{put_at};
ghost use Rattle.octets.specs.Parts.{part};
ghost use Rattle.model.specs.Farm.{with_line};
ghost use Rattle.model.specs.Line.{without};
ghost use Rattle.table.specs.Layout.{seats, line_at, seats_at, block_size};
ghost use Rattle.table.specs.Block.{farm_of, Whole, Holds};

use table::{CLOCK, FIRST_SEAT, LINE, SEATS};

// How many wait.
pub fn waiting(b: &[u8]) -> usize
    requires { length b.now ≡ block_size }
    ensures { result ≡ length (farm_of b.now).line }
{
    octets::wide(b[LINE]).min(SEATS)
}

// The seat of the k-th waiter, the head being the 0th; 0 where so many do not wait.
pub fn seat_at(b: &[u8], k: usize) -> usize
    requires { length b.now ≡ block_size }
    ensures { result ≡ get_or (farm_of b.now).line k 0 }
{
    if k < waiting(b) {
        return octets::wide(b[FIRST_SEAT + k]);
    }
    0
}

// The head of the line.
pub fn head(b: &[u8]) -> Option<usize>
    requires { length b.now ≡ block_size }
    ensures { result ≡ slice_get (farm_of b.now).line 0 }
{
    (waiting(b) > 0).then(|| seat_at(b, 0))
}

fn seats_of(b: &[u8]) -> [u8; SEATS]
    requires { length b.now ≡ block_size }
    ensures { result ≡ part b.now seats_at seats }
{
    let mut t = [0; SEATS];
    octets::put(&mut t, 0, &b[FIRST_SEAT..CLOCK]);
    t
}

fn store(b: &mut [u8], n: u8, t: [u8; SEATS])
    requires { length b.old ≡ block_size }
    ensures { b.new ≡ put_at b.old line_at (n ∷ t) }
{
    b[LINE] = n;
    octets::put(b, FIRST_SEAT, &t);
}

// "joins the end of its farm's line"
pub fn join(b: &mut [u8], seat: usize)
    requires { (seat < seats) × (length (farm_of b.old).line < seats) × Whole b.old }
    ensures { Holds b.new (with_line (farm_of b.old) ((farm_of b.old).line ++ (seat ∷ []))) }
{
    let n = waiting(b);
    let mut t = seats_of(b);
    t[n] = seat as u8;
    store(b, (n + 1) as u8, t);
}

// The head leaves.
pub fn pop(b: &mut [u8])
    requires { (0 < length (farm_of b.old).line) × Whole b.old }
    ensures { Holds b.new (with_line (farm_of b.old) (drop 1 (farm_of b.old).line)) }
{
    let n = waiting(b);
    let mut t = [0; SEATS];
    octets::put(&mut t, 0, &b[FIRST_SEAT + 1..CLOCK]);
    store(b, (n - 1) as u8, t);
}

pub fn clear_line(b: &mut [u8])
    requires { Whole b.old }
    ensures { Holds b.new (with_line (farm_of b.old) []) }
{
    store(b, 0, [0; SEATS]);
}

// "A waiter whose row closes leaves the line"
pub fn leave(b: &mut [u8], seat: usize)
    requires { Whole b.old }
    ensures { Holds b.new (with_line (farm_of b.old) (without seat (farm_of b.old).line)) }
{
    let n = waiting(b);
    let s = seats_of(b);
    let mut t = [0; SEATS];
    let mut k: usize = 0;
    for i in 0..n {
        if octets::wide(s[i]) != seat {
            t[k] = s[i];
            k += 1;
        }
    }
    store(b, k as u8, t);
}
