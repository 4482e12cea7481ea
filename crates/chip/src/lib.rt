#![tactic(auto)]
// The state of a chip that has power, and what an accepted event makes of it.
// Each part moves by its own rule, under the registers as they stand after the event.
ghost use Rattle.std.specs.Prelude.{◌≡◌};
ghost use Rattle.chip.specs.Chips.{address_after, pin_low_after, pointer_after, pulled_after, port_after, context_of, chip_after};

use channel::Channel;
use event::Kind;
use fan::Fan;
use input::Input;
use part::{FanId, PerChannel, PerFan};
use stored::{Context, Registers};

// What is neither register, channel nor fan: bus address and pointer, pin level, and the pin's status bit.
#[derive(Clone, Copy, Default)]
pub struct Port {
    pub address: u8,
    pub pointer: u8,
    pub pin_low: bool,
    pub pulled: bool,
}

#[derive(Clone, Copy, Default)]
pub struct Chip {
    pub port: Port,
    pub registers: Registers,
    pub channels: PerChannel<Channel>,
    pub fans: PerFan<Fan>,
}

fn address_after(i: Input, was: u8) -> u8
    ensures { result ≡ address_after i was }
{
    if input::is_a(Kind::Power, i) {
        (i.who % 256) as u8
    } else {
        was
    }
}

fn pin_low_after(i: Input, was: bool) -> bool
    ensures { result ≡ pin_low_after i was }
{
    input::flag_after(
        input::is_a(Kind::Power, i),
        input::is_a(Kind::Pin, i),
        i.val == 0,
        was,
    )
}

fn pointer_after(i: Input, was: u8) -> u8
    ensures { result ≡ pointer_after i was }
{
    if input::is_a(Kind::Power, i) {
        return 0;
    }
    if matches!(i.kind, Some(Kind::Write | Kind::Point)) {
        (i.arg % 256) as u8
    } else {
        was
    }
}

fn pulled_after(pin_low: bool, pointer: u8, i: Input, was: bool) -> bool
    ensures { result ≡ pulled_after pin_low pointer i was }
{
    let sets = input::is_a(Kind::Pin, i) & (i.val == 0) & !pin_low;
    let clears = input::is_restart(i) | input::is_read(stored::status_at(FanId::Two), pointer, i);
    input::bit_after(sets, clears, was)
}

#[tactic(auto, unfolding(crate::specs::Chips::port_after))]
fn port_after(i: Input, p: Port) -> Port
    ensures { result ≡ port_after i p }
{
    Port {
        address: address_after(i, p.address),
        pointer: pointer_after(i, p.pointer),
        pin_low: pin_low_after(i, p.pin_low),
        pulled: pulled_after(p.pin_low, p.pointer, i, p.pulled),
    }
}

// What moves a part of the chip.
fn context(i: Input, k: &Chip) -> Context
    ensures { result ≡ context_of i k.now.registers k.now }
{
    Context {
        input: i,
        registers: k.registers,
        pointer: k.port.pointer,
    }
}

impl Chip {
    // An accepted event: the fans move by port and channels as they stand after it.
    #[tactic(auto, unfolding(crate::specs::Chips::chip_with, crate::specs::Chips::chip_under, crate::specs::Chips::chip_after))]
    pub fn accept(&mut self, i: Input)
        ensures { self.new ≡ chip_after i self.old }
    {
        self.registers.accept(i);
        let m = context(i, self);
        self.port = port_after(i, self.port);
        self.channels = channel::channels_after(m, self.channels);
        let pin_low = self.port.pin_low;
        let cs = self.channels;
        self.fans = self
            .fans
            .map(|f, was| fan::fan_after(f, pin_low, m, cs, was));
    }
}
