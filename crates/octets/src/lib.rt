// Big-endian numbers in lent bytes, and the one function that puts a run of bytes into its place.
#![tactic(auto)]

ghost use Rattle.std.specs.Prelude.{◌≡◌, ◌+◌, ◌*◌, ◌≤◌, length};
ghost use Rattle.octets.specs.Numbers.{u16_at, u32_at, be16, be32};
ghost use Rattle.octets.specs.Put.{put_at};
ghost use Rattle.octets.specs.Search.{same_list};

// A byte as an index.
pub fn wide(x: u8) -> usize
    ensures { result ≡ x }
{
    usize::from(x)
}

// The number of two bytes, and of four.
pub fn join16(a: u8, b: u8) -> u16
    ensures { result ≡ a * 256 + b }
{
    u16::from_be_bytes([a, b])
}

pub fn join32(a: u8, b: u8, c: u8, d: u8) -> u32
    ensures { result ≡ a * 16777216 + b * 65536 + c * 256 + d }
{
    u32::from_be_bytes([a, b, c, d])
}

// Two sizes of each, and no generic pair: std has from_be_bytes and to_be_bytes at each type and in no trait, so that the two impls of
// one of ours would repeat what stands here.
pub fn read16(s: &[u8], at: usize) -> u16
    requires { at + 2 ≤ length s.now }
    ensures { result ≡ u16_at s.now at }
{
    join16(s[at], s[at + 1])
}

pub fn read32(s: &[u8], at: usize) -> u32
    requires { at + 4 ≤ length s.now }
    ensures { result ≡ u32_at s.now at }
{
    join32(s[at], s[at + 1], s[at + 2], s[at + 3])
}

// All of src into out, from the place at on. It is a loop and no `copy_from_slice`, for which the archive for C would need a memmove from
// outside: docs/HOST.md promises that it needs memcpy and memset alone.
pub fn put(out: &mut [u8], at: usize, src: &[u8])
    requires { at + length src.now ≤ length out.old }
    ensures { out.new ≡ put_at out.old at src.now }
{
    for j in 0..src.len() {
        out[at + j] = src[j];
    }
}

pub fn write16(out: &mut [u8], at: usize, x: u16)
    requires { at + 2 ≤ length out.old }
    ensures { out.new ≡ put_at out.old at (be16 x) }
{
    put(out, at, &u16::to_be_bytes(x));
}

pub fn write32(out: &mut [u8], at: usize, x: u32)
    requires { at + 4 ≤ length out.old }
    ensures { out.new ≡ put_at out.old at (be32 x) }
{
    put(out, at, &u32::to_be_bytes(x));
}

// The two hold the same bytes.
pub fn same(a: &[u8], b: &[u8]) -> bool
    ensures { result ≡ same_list a.now b.now }
{
    a == b
}
