// The byte that an event stores, put at its address.
ghost use Rattle.std.specs.Prelude.{◌≡◌};
ghost use Rattle.stored.specs.Stored.{place_in, byte_for, put_at, bytes};

use super::{Registers, cells};
use event::Kind;
use input::Input;

// The address that a write or a count is for, where there is one.
#[tactic(auto, unfolding(crate::specs::Stored::place_in))]
pub fn place_in(i: Input) -> Option<u8>
    ensures { result ≡ place_in i }
{
    match (i.kind, i.who) {
        (Some(Kind::Write), _) => u8::try_from(i.arg).ok(),
        (Some(Kind::Tach), 1) => Some(0x08),
        (Some(Kind::Tach), 2) => Some(0x09),
        _ => None,
    }
}

// The byte that stands there then: what is written, read-only bits keeping theirs; or the count.
#[tactic(auto, unfolding(crate::specs::Stored::byte_for))]
pub fn byte_for(i: Input, at: u8, s: Registers) -> u8
    ensures { result ≡ byte_for i at s }
{
    let byte = input::byte_in(i);
    if input::is_a(Kind::Write, i) {
        integer::merged(register::mask_at(at), cells::stored_in(s, at), byte)
    } else {
        byte
    }
}

impl Registers {
    // One byte at its address; at any other address nothing.
    // Stays: addresses as numbers, since the field in each row names its register, and a list of 29 names would say them twice.
    #[tactic(auto, unfolding(crate::specs::Stored::bytes, crate::specs::Stored::channel_bytes, crate::specs::Stored::fan_bytes))]
    pub fn put(&mut self, at: u8, byte: u8)
        ensures { self.new ≡ bytes (put_at at byte) self.old }
    {
        match at {
            0x00 => self.config1 = byte,
            0x01 => self.config2 = byte,
            0x07 => self.test = byte,
            0x08 => self.fans.one.speed = byte,
            0x09 => self.fans.two.speed = byte,
            0x0D => self.channels.local.offset = byte,
            0x0E => self.channels.remote1.offset = byte,
            0x0F => self.channels.remote2.offset = byte,
            0x10 => self.fans.one.limit = byte,
            0x11 => self.fans.two.limit = byte,
            0x14 => self.channels.local.high = byte,
            0x15 => self.channels.local.low = byte,
            0x16 => self.channels.local.therm = byte,
            0x18 => self.channels.remote1.high = byte,
            0x19 => self.channels.remote1.low = byte,
            0x1A => self.channels.remote1.therm = byte,
            0x1C => self.channels.remote2.high = byte,
            0x1D => self.channels.remote2.low = byte,
            0x1E => self.channels.remote2.therm = byte,
            0x20 => self.fans.one.characteristics = byte,
            0x21 => self.fans.two.characteristics = byte,
            0x22 => self.speeds = byte,
            0x23 => self.filter = byte,
            0x24 => self.channels.local.control = byte,
            0x25 => self.channels.remote1.control = byte,
            0x26 => self.channels.remote2.control = byte,
            0x3F => self.behaviour = byte,
            _ => {}
        }
    }
}
