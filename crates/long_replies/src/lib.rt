// The two messages that hold lent bytes, put into the buffer.
#![tactic(auto)]

ghost use Rattle.std.specs.Prelude.{◌≡◌, ◌+◌, ◌≤◌, ◌<◌, length};
ghost use Rattle.octets.specs.Put.{put_at};
ghost use Rattle.layout.specs.Layout.{identity_bytes, message_bytes};

// 8001: a head of twelve bytes, then the user data.
pub fn put_message(
    out: &mut [u8],
    at: usize,
    version: u8,
    controller: u16,
    tester: u16,
    user: &[u8],
)
    requires user_in_bounds { at + 12 + length user.now ≤ length out.old }
    requires user_len_bound { length user.now < 65532 }
    ensures { out.new ≡ put_at out.old at (message_bytes version controller tester user.now) }
{
    let [length_high, length_low] = (user.len() as u16 + 4).to_be_bytes();
    let [controller_high, controller_low] = controller.to_be_bytes();
    let [tester_high, tester_low] = tester.to_be_bytes();
    let b = [
        version,
        255 - version,
        128,
        1,
        0,
        0,
        length_high,
        length_low,
        controller_high,
        controller_low,
        tester_high,
        tester_low,
    ];
    octets::put(out, at, &b);
    octets::put(out, at + 12, user);
}

// 0004 of the farm with this record: five parts, four of them from the record.
pub fn put_identity(out: &mut [u8], at: usize, version: u8, farm: &[u8])
    requires at_in_bounds { at + 40 ≤ length out.old }
    requires farm_len { length farm.now ≡ 33 }
    ensures { out.new ≡ put_at out.old at (identity_bytes version farm.now) }
{
    let head = [version, 255 - version, 0, 4, 0, 0, 0, 32];
    octets::put(out, at, &head);
    octets::put(out, at + 8, &farm[4..21]);
    octets::put(out, at + 25, &farm[0..2]);
    octets::put(out, at + 27, &farm[21..33]);
    octets::put(out, at + 39, &[0]);
}
