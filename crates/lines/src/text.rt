// Numbers in decimal and bytes in hexadecimal, put into a lent buffer. Each function answers the place after what it put.
ghost use Rattle.std.specs.Prelude.{◌≡◌, ◌+◌, ◌*◌, ◌≤◌, ◌<◌, length};
ghost use Rattle.octets.specs.Put.{put_at};
ghost use Rattle.lines.specs.Text.{digit_of, decimal, most_digits, hex_byte, hex, Wrote};

use itoa::Buffer;

pub fn put_decimal(out: &mut [u8], at: usize, n: usize) -> usize
    requires { at + most_digits ≤ length out.old }
    ensures { Wrote (decimal n) out.old out.new at result }
{
    // Most numbers of a line have one digit, and want no buffer.
    if n < 10 {
        out[at] = b'0' + n as u8;
        return at + 1;
    }
    let mut buffer = Buffer::new();
    let digits = buffer.format(n).as_bytes();
    octets::put(out, at, digits);
    at + digits.len()
}

// "lower-case hexadecimal"
fn digit(d: usize) -> u8
    requires { d < 16 }
    ensures { result ≡ digit_of d }
{
    if d < 10 {
        return b'0' + d as u8;
    }
    b'a' - 10 + d as u8
}

fn put_hex_byte(out: &mut [u8], at: usize, b: u8)
    requires { at + 2 ≤ length out.old }
    ensures { out.new ≡ put_at out.old at (hex_byte b) }
{
    let x = b as usize;
    let two = [digit(x / 16), digit(x % 16)];
    octets::put(out, at, &two);
}

// A loop of our own: the kit's `hex` was tried, and took 1.65 times as long over a day of long messages (docs/DESIGN-PASS.md).
pub fn put_hex(out: &mut [u8], at: usize, bytes: &[u8]) -> usize
    requires { at + 2 * length bytes.now ≤ length out.old }
    ensures { Wrote (hex bytes.now) out.old out.new at result }
{
    for j in 0..bytes.len() {
        put_hex_byte(out, at + 2 * j, bytes[j]);
    }
    at + 2 * bytes.len()
}
