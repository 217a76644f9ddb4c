// What stands in the payloads that the core reads. The header's verdict has seen to their lengths.
#![tactic(auto)]

ghost use Rattle.std.specs.Prelude.{◌≡◌, ◌≤◌, length};
ghost use Rattle.payload.specs.Payload.{request_in, address_in, ends_in, user_data_in};

use kinds::Request;

// The two ends of a diagnostic message.
#[derive(Clone, Copy)]
pub struct Ends {
    pub source: u16,
    pub target: u16,
}

// 0005
pub fn request_of(payload: &[u8]) -> Request
    requires { 3 ≤ length payload.now }
    ensures { result ≡ request_in payload.now }
{
    Request {
        address: octets::read16(payload, 0),
        kind: payload[2],
    }
}

// 0008
pub fn address_of(payload: &[u8]) -> u16
    requires { 2 ≤ length payload.now }
    ensures { result ≡ address_in payload.now }
{
    octets::read16(payload, 0)
}

// 8001
pub fn ends_of(payload: &[u8]) -> Ends
    requires { 4 ≤ length payload.now }
    ensures { result ≡ ends_in payload.now }
{
    Ends {
        source: octets::read16(payload, 0),
        target: octets::read16(payload, 2),
    }
}

pub fn user_data(payload: &[u8]) -> &[u8]
    requires { 4 ≤ length payload.now }
    ensures { result.now ≡ user_data_in payload.now }
{
    &payload[4..]
}
