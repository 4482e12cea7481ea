#![tactic(auto)]
// The bytes that the chip stores, and what an event makes of them.
// A byte is known by its address in the register table.
mod cells;
mod fields;
mod put;
mod reset;

ghost use Rattle.std.specs.Prelude.{◌≡◌};
ghost use Rattle.rules.specs.Registers.{status_at};
ghost use Rattle.stored.specs.Stored.{stores_nothing, registers_after};

pub use cells::stored_in;
use event::Kind;
pub use fields::{channel_enabled, filter_enabled, output_enabled, tach_enabled};
use input::Input;
use part::{FanId, PerChannel, PerFan};

// The bytes of a channel's registers.
#[derive(Clone, Copy, Default)]
pub struct ChannelRegisters {
    pub offset: u8,
    pub high: u8,
    pub low: u8,
    pub therm: u8,
    pub control: u8,
}

// The bytes of a fan's registers.
#[derive(Clone, Copy, Default)]
pub struct FanRegisters {
    pub speed: u8,
    pub limit: u8,
    pub characteristics: u8,
}

#[derive(Clone, Copy, Default)]
pub struct Registers {
    pub config1: u8,
    pub config2: u8,
    pub test: u8,
    pub speeds: u8,
    pub filter: u8,
    pub behaviour: u8,
    pub channels: PerChannel<ChannelRegisters>,
    pub fans: PerFan<FanRegisters>,
}

// What moves a part: the event, the registers as they stand after it, the pointer as it stood before it.
#[derive(Clone, Copy)]
pub struct Context {
    pub input: Input,
    pub registers: Registers,
    pub pointer: u8,
}

// The status register, by its fan.
pub fn status_at(f: FanId) -> u8
    ensures { result ≡ status_at f }
{
    0x02 + f as u8
}

// ---- bytes after an event

// An event that stores nothing: no start afresh, no write, no count.
pub fn stores_nothing(i: Input) -> bool
    ensures { result ≡ stores_nothing i }
{
    !(input::is_restart(i) | (input::is_a(Kind::Write, i) | input::is_a(Kind::Tach, i)))
}

impl Registers {
    // After a start afresh every byte as after power, else all as they were but the one that the event stores.
    #[tactic(auto, using(crate::proofs::Laws::kept, crate::proofs::PutLaws::nothing_put))]
    pub fn accept(&mut self, i: Input)
        ensures { self.new ≡ registers_after i self.old }
    {
        if stores_nothing(i) {
            return;
        }
        if input::is_restart(i) {
            *self = reset::after_power();
            return;
        }
        if let Some(at) = put::place_in(i) {
            let byte = put::byte_for(i, at, *self);
            self.put(at, byte);
        }
    }
}
