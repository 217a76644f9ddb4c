// Bytes moved to another place.
ghost use Rattle.std.specs.Prelude.{◌≡◌, ◌-◌, ◌≤◌, length};
ghost use Rattle.octets.specs.Parts.{part};
ghost use Rattle.octets.specs.Put.{put_at};
ghost use Rattle.day.specs.Places.{damaged};

// The bytes from `from` up to `have` go to the start; the answer is how many they are.
#[tactic(auto, unfolding(octets::specs::Put::put_at))]
pub fn shift(b: &mut [u8], from: usize, have: usize) -> usize
    requires { (from ≤ have) × (have ≤ length b.old) }
    ensures { (result ≡ have - from) × (b.new ≡ put_at b.old 0 (part b.old from (have - from))) }
{
    b.copy_within(from..have, 0);
    have - from
}

// "these bytes are written over the lent table from that place on; what falls past its end is left out"
#[tactic(auto, unfolding(crate::specs::Places::damaged))]
pub fn damage(t: &mut [u8], at: usize, bytes: &[u8])
    ensures { t.new ≡ damaged t.old at bytes.now }
{
    if at <= t.len() {
        let fits = bytes.len().min(t.len() - at);
        octets::put(t, at, &bytes[..fits]);
    }
}
