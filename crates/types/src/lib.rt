// The constant table of payload types, and the two questions that are asked of it.
#![tactic(auto)]

ghost use Rattle.std.specs.Prelude.{◌≡◌};
ghost use Rattle.types.specs.Types.{types, is_of, is_of_length, known_on, length_fits};

// A line of the table: a payload type, the port that it is known on, the least and the greatest payload length.
#[derive(Clone, Copy)]
pub struct Kind {
    pub kind: u16,
    pub port: u8,
    pub least: u32,
    pub most: u32,
}

pub const TCP: u8 = 0;

pub const UDP: u8 = 1;

const OR_MORE: u32 = 4294967295;

// The lines of TCP first, and the one that a working day asks for most before the others. Each line is a literal, since a
// constant's value calls no function.
const TYPES: [Kind; 14] = [
    Kind {
        kind: 0x8001,
        port: TCP,
        least: 5,
        most: OR_MORE,
    },
    Kind {
        kind: 0x0005,
        port: TCP,
        least: 7,
        most: 7,
    },
    Kind {
        kind: 0x0005,
        port: TCP,
        least: 11,
        most: 11,
    },
    Kind {
        kind: 0x0008,
        port: TCP,
        least: 2,
        most: 2,
    },
    Kind {
        kind: 0x0000,
        port: TCP,
        least: 1,
        most: 1,
    },
    Kind {
        kind: 0x8002,
        port: TCP,
        least: 5,
        most: OR_MORE,
    },
    Kind {
        kind: 0x8003,
        port: TCP,
        least: 5,
        most: OR_MORE,
    },
    Kind {
        kind: 0x0000,
        port: UDP,
        least: 0,
        most: OR_MORE,
    },
    Kind {
        kind: 0x0001,
        port: UDP,
        least: 0,
        most: 0,
    },
    Kind {
        kind: 0x0002,
        port: UDP,
        least: 6,
        most: 6,
    },
    Kind {
        kind: 0x0003,
        port: UDP,
        least: 17,
        most: 17,
    },
    Kind {
        kind: 0x0004,
        port: UDP,
        least: 32,
        most: 33,
    },
    Kind {
        kind: 0x4001,
        port: UDP,
        least: 0,
        most: 0,
    },
    Kind {
        kind: 0x4003,
        port: UDP,
        least: 0,
        most: 0,
    },
];

// The table's rule: its lines are document 01's.
fn lines() -> &'static [Kind]
    ensures { result.now ≡ types }
{
    &TYPES
}

impl Kind {
    fn is_of(self, port: u8, kind: u16) -> bool
        ensures { result ≡ is_of port kind self }
    {
        self.port == port && self.kind == kind
    }

    fn allows(self, port: u8, kind: u16, n: u32) -> bool
        ensures { result ≡ is_of_length port kind n self }
    {
        self.is_of(port, kind) && self.least <= n && n <= self.most
    }
}

// The type is known on the port. Any byte may be asked about, so a port is no enum: a number that is neither knows no type.
pub fn known(port: u8, kind: u16) -> bool
    ensures { result ≡ known_on port kind }
{
    lines().iter().any(|k| k.is_of(port, kind))
}

// The length is right for the type.
pub fn length_fits(port: u8, kind: u16, n: u32) -> bool
    ensures { result ≡ length_fits port kind n }
{
    lines().iter().any(|k| k.allows(port, kind, n))
}
