// "one check clock"
ghost use Rattle.std.specs.Prelude.{◌≡◌, length};
ghost use Rattle.model.specs.Farm.{with_clock};
ghost use Rattle.table.specs.Layout.{block_size};
ghost use Rattle.table.specs.Block.{farm_of, Whole, Holds};

use crate::CLOCK;
use kinds::Clock;

pub fn clock_at(b: &[u8]) -> Clock
    requires { length b.now ≡ block_size }
    ensures { result ≡ (farm_of b.now).clock }
{
    Clock {
        ticks: octets::read16(b, CLOCK),
    }
}

pub fn put_clock(b: &mut [u8], c: Clock)
    requires { Whole b.old }
    ensures { Holds b.new (with_clock (farm_of b.old) c) }
{
    octets::write16(b, CLOCK, c.ticks);
}
