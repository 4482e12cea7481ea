// The stored byte at an address.
ghost use Rattle.std.specs.Prelude.{◌≡◌};
ghost use Rattle.stored.specs.Stored.{stored_in};

use super::Registers;

// The stored byte at an address, 0 where none is stored.
// Stays: addresses as numbers, as in `Registers::put`.
#[tactic(auto, unfolding(crate::specs::Stored::cells, crate::specs::Stored::found, crate::specs::Stored::stored_in))]
pub fn stored_in(s: Registers, a: u8) -> u8
    ensures { result ≡ stored_in s a }
{
    match a {
        0x3F => s.behaviour,
        0x3E => 0x41,
        0x3D => 0x31,
        0x26 => s.channels.remote2.control,
        0x25 => s.channels.remote1.control,
        0x24 => s.channels.local.control,
        0x23 => s.filter,
        0x22 => s.speeds,
        0x21 => s.fans.two.characteristics,
        0x20 => s.fans.one.characteristics,
        0x1E => s.channels.remote2.therm,
        0x1D => s.channels.remote2.low,
        0x1C => s.channels.remote2.high,
        0x1A => s.channels.remote1.therm,
        0x19 => s.channels.remote1.low,
        0x18 => s.channels.remote1.high,
        0x16 => s.channels.local.therm,
        0x15 => s.channels.local.low,
        0x14 => s.channels.local.high,
        0x11 => s.fans.two.limit,
        0x10 => s.fans.one.limit,
        0x0F => s.channels.remote2.offset,
        0x0E => s.channels.remote1.offset,
        0x0D => s.channels.local.offset,
        0x09 => s.fans.two.speed,
        0x08 => s.fans.one.speed,
        0x07 => s.test,
        0x01 => s.config2,
        0x00 => s.config1,
        _ => 0,
    }
}
