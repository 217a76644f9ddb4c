// The eight bytes of a header, and the verdict on them on TCP.
ghost use Rattle.std.specs.Prelude.{◌≡◌, ◌+◌, ◌≤◌, length};
ghost use Rattle.wire.specs.Header.{header_at, verdict_of, code_of, closes, everyday};

use kinds::Fault;

#[derive(Clone, Copy)]
pub struct Header {
    pub version: u8,
    pub inverse: u8,
    pub kind: u16,
    pub length: u32,
}

// The header in the eight bytes from a place on.
pub fn read(s: &[u8], at: usize) -> Header
    requires { at + 8 ≤ length s.now }
    ensures { result ≡ header_at s.now at }
{
    Header {
        version: s[at],
        inverse: s[at + 1],
        kind: octets::read16(s, at + 2),
        length: octets::read32(s, at + 4),
    }
}

// A diagnostic message of a right length: nearly every header of a working day, so it is tried before the table is walked.
fn is_everyday(kind: u16, n: u32) -> bool
    ensures { result ≡ everyday kind n }
{
    kind == 0x8001 && 5 <= n && n <= 2048
}

#[tactic(auto, unfolding(crate::specs::Header::verdict_of))]
pub fn judge(h: Header) -> Result<(), Fault>
    ensures { result ≡ verdict_of h }
{
    if h.version != 3 || h.inverse != 252 {
        return Err(Fault::Pattern);
    }
    if is_everyday(h.kind, h.length) {
        return Ok(());
    }
    if !types::known(types::TCP, h.kind) {
        return Err(Fault::UnknownType);
    }
    if 2048 < h.length {
        return Err(Fault::TooLong);
    }
    if !types::length_fits(types::TCP, h.kind, h.length) {
        return Err(Fault::WrongLength);
    }
    Ok(())
}

// The NACK's code, under the name that the papers give; a `From<Fault>` beside it would say it twice.
pub fn code_of(f: Fault) -> u8
    ensures { result ≡ code_of f }
{
    match f {
        Fault::Pattern => 0,
        Fault::UnknownType => 1,
        Fault::TooLong => 2,
        Fault::WrongLength => 4,
    }
}

// The fault closes the row; after the others its payload is skipped.
pub fn closes_row(f: Fault) -> bool
    ensures { result ≡ closes f }
{
    matches!(f, Fault::Pattern | Fault::WrongLength)
}
