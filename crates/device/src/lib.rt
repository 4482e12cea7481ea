#![tactic(auto)]
// A chip, its INT line, which an alert lets go until a status bit rises, a reset or a power (T-02 of document 02), and its stamps (T-07).
// Chip, channels and fans know nothing of either: both follow from the event, the chip before it and the chip after it.
mod stamping;

ghost use Rattle.std.specs.Prelude.{◌≡◌};
ghost use Rattle.rules.specs.Shows.{risen, some_risen};
ghost use Rattle.device.specs.Devices.{raises_in, silenced_after, device_after};

use chip::Chip;
use event::Kind;
use input::Input;
use part::{FanId, PerFan};
pub use stamping::age;

// The stamp, and that of each fan when it last started.
#[derive(Clone, Copy, Default)]
pub struct Stamps {
    pub now: u16,
    pub starts: PerFan<u16>,
}

#[derive(Clone, Copy, Default)]
pub struct Device {
    pub chip: Chip,
    pub silenced: bool,
    pub stamps: Stamps,
}

// Whether the bit of a byte at a place goes from 0 to 1.
fn risen(was: u8, now: u8, place: u8) -> bool
    ensures { result ≡ risen was now place }
{
    !integer::bit(was, place) & integer::bit(now, place)
}

// Whether any of its bits does.
fn some_risen(was: u8, now: u8) -> bool
    ensures { result ≡ some_risen was now }
{
    (0..8).any(|place| risen(was, now, place))
}

// Whether any of the sixteen status bits does.
fn raises(before: Chip, after: Chip) -> bool
    ensures { result ≡ raises_in before after }
{
    let was1 = output::status(FanId::One, before);
    let now1 = output::status(FanId::One, after);
    let was2 = output::status(FanId::Two, before);
    let now2 = output::status(FanId::Two, after);
    some_risen(was1, now1) | some_risen(was2, now2)
}

fn silenced_after(i: Input, was: bool, before: Chip, after: Chip) -> bool
    ensures { result ≡ silenced_after i was before after }
{
    if input::is_restart(i) {
        return false;
    }
    if was {
        return !raises(before, after);
    }
    if input::is_a(Kind::Alert, i) {
        output::int_due(before)
    } else {
        false
    }
}

impl Device {
    // An accepted event.
    #[tactic(auto, unfolding(crate::specs::Devices::device_after))]
    pub fn accept(&mut self, i: Input)
        ensures { self.new ≡ device_after i self.old }
    {
        let before = self.chip;
        self.chip.accept(i);
        self.silenced = silenced_after(i, self.silenced, before, self.chip);
        self.stamps = stamping::stamps_after(i, self.stamps, before, self.chip);
    }
}
