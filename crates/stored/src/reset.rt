// The bytes after power or the software reset; nothing stays of those before.
ghost use Rattle.std.specs.Prelude.{◌≡◌};
ghost use Rattle.stored.specs.Stored.{reset_to, bytes};

use super::{ChannelRegisters, FanRegisters, Registers};
use part::{PerChannel, PerFan};

const LOCAL: ChannelRegisters = ChannelRegisters {
    offset: 0,
    high: 60,
    low: 0,
    therm: 70,
    control: 0x41,
};

const REMOTE: ChannelRegisters = ChannelRegisters {
    offset: 0,
    high: 80,
    low: 0,
    therm: 100,
    control: 0x61,
};

const FAN: FanRegisters = FanRegisters {
    speed: 0,
    limit: 0xFF,
    characteristics: 0x5D,
};

// Whatever the bytes were before, each is what the register table says.
pub fn after_power() -> Registers
    ensures { (s : Registers) → result ≡ bytes reset_to s }
{
    Registers {
        config1: 0x90,
        config2: 0x7F,
        test: 0x00,
        speeds: 0x55,
        filter: 0x50,
        behaviour: 0x80,
        channels: PerChannel {
            local: LOCAL,
            remote1: REMOTE,
            remote2: REMOTE,
        },
        fans: PerFan::all(FAN),
    }
}
