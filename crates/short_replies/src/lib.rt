// The replies of known length, each as an array by value.
#![tactic(auto)]

ghost use Rattle.std.specs.Prelude.{◌≡◌, [], ◌∷◌, ◌++◌};
ghost use Rattle.octets.specs.Numbers.{be16};
ghost use Rattle.layout.specs.Layout.{framed, nack_bytes, activation_bytes, alive_check_bytes, status_bytes, power_mode_bytes, ack_bytes, diagnostic_nack_bytes};

// A message whose payload is one byte.
fn of_one(version: u8, kind: u16, byte: u8) -> [u8; 9]
    ensures { result ≡ framed version kind (byte ∷ []) }
{
    let [high, low] = kind.to_be_bytes();
    [version, 255 - version, high, low, 0, 0, 0, 1, byte]
}

// 0000
pub fn nack(version: u8, code: u8) -> [u8; 9]
    ensures { result ≡ nack_bytes version code }
{
    of_one(version, 0x0000, code)
}

// 0006
pub fn activation(version: u8, address: u16, entity: u16, code: u8) -> [u8; 17]
    ensures { result ≡ activation_bytes version address entity code }
{
    let [address_high, address_low] = address.to_be_bytes();
    let [entity_high, entity_low] = entity.to_be_bytes();
    [
        version,
        255 - version,
        0,
        6,
        0,
        0,
        0,
        9,
        address_high,
        address_low,
        entity_high,
        entity_low,
        code,
        0,
        0,
        0,
        0,
    ]
}

// 0007
pub fn alive_check(version: u8) -> [u8; 8]
    ensures { result ≡ alive_check_bytes version }
{
    [version, 255 - version, 0, 7, 0, 0, 0, 0]
}

// 4002; 2,048 is the longest payload that a row takes
pub fn status(version: u8, quota: u8, opened: u8) -> [u8; 15]
    ensures { result ≡ status_bytes version quota opened }
{
    [
        version,
        255 - version,
        64,
        2,
        0,
        0,
        0,
        7,
        0,
        quota,
        opened,
        0,
        0,
        8,
        0,
    ]
}

// 4004
pub fn power_mode(version: u8, mode: u8) -> [u8; 9]
    ensures { result ≡ power_mode_bytes version mode }
{
    of_one(version, 0x4004, mode)
}

// A reply to a diagnostic message: "target, source, code".
fn to_message(version: u8, kind: u16, target: u16, source: u16, code: u8) -> [u8; 13]
    ensures { result ≡ framed version kind (be16 target ++ be16 source ++ (code ∷ [])) }
{
    let [kind_high, kind_low] = kind.to_be_bytes();
    let [target_high, target_low] = target.to_be_bytes();
    let [source_high, source_low] = source.to_be_bytes();
    [
        version,
        255 - version,
        kind_high,
        kind_low,
        0,
        0,
        0,
        5,
        target_high,
        target_low,
        source_high,
        source_low,
        code,
    ]
}

// 8002
pub fn ack(version: u8, target: u16, source: u16, code: u8) -> [u8; 13]
    ensures { result ≡ ack_bytes version target source code }
{
    to_message(version, 0x8002, target, source, code)
}

// 8003
pub fn diagnostic_nack(version: u8, target: u16, source: u16, code: u8) -> [u8; 13]
    ensures { result ≡ diagnostic_nack_bytes version target source code }
{
    to_message(version, 0x8003, target, source, code)
}
