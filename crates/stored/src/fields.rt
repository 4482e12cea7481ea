// The enable bits of fans and channels, each of the byte of its register.
// Stays: each of the four names its bit in one line, and one function of bit and byte is `integer::bit` itself.
ghost use Rattle.std.specs.Prelude.{◌≡◌};
ghost use Rattle.rules.specs.Fields.{output_enabled, tach_enabled, channel_enabled, filter_enabled};

use part::{ChannelId, FanId};

pub fn output_enabled(f: FanId, config2: u8) -> bool
    ensures { result ≡ output_enabled f config2 }
{
    integer::bit(config2, f as u8)
}

pub fn tach_enabled(f: FanId, config2: u8) -> bool
    ensures { result ≡ tach_enabled f config2 }
{
    integer::bit(config2, 2 + f as u8)
}

pub fn channel_enabled(c: ChannelId, config2: u8) -> bool
    ensures { result ≡ channel_enabled c config2 }
{
    integer::bit(config2, 4 + c as u8)
}

pub fn filter_enabled(f: FanId, filter: u8) -> bool
    ensures { result ≡ filter_enabled f filter }
{
    integer::bit(filter, f as u8)
}
