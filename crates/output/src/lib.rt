#![tactic(auto)]
// What a chip shows: each register as a read returns it, INT, THERM, FAN_FAULT and the duties.
// Reading here has no side effect.
ghost use Rattle.std.specs.Prelude.{◌≡◌};
ghost use Rattle.output.specs.Outputs.{status_of, register_at, pending_in, int_due_of, fault_of, shown_of};

use chip::Chip;
use event::Shown;
use part::{ChannelId, FanId};

// ---- registers

// The status registers: 0x02 by fan 1, 0x03 by fan 2.
// Stays: six bits go by a fan and its remote channel, two do not; so each register is read off as the data sheet has it.
#[tactic(auto, unfolding(crate::specs::Outputs::status_of))]
pub fn status(f: FanId, k: Chip) -> u8
    ensures { result ≡ status_of f k }
{
    match f {
        FanId::One => integer::pack(
            k.fans.one.alarm,
            k.fans.one.fault,
            k.channels.remote1.high,
            k.channels.remote1.low,
            k.channels.remote1.therm,
            k.channels.remote1.error,
            k.channels.local.high,
            k.channels.local.low,
        ),
        FanId::Two => integer::pack(
            k.fans.two.alarm,
            k.fans.two.fault,
            k.channels.remote2.high,
            k.channels.remote2.low,
            k.channels.remote2.therm,
            k.channels.remote2.error,
            k.channels.local.therm,
            k.port.pulled,
        ),
    }
}

// What a read of the register at an address returns; 0 where there is no register.
#[tactic(auto, unfolding(crate::specs::Outputs::register_at))]
pub fn value_at(k: Chip, a: u8) -> u8
    ensures { result ≡ register_at k a }
{
    if !register::exists_at(a) {
        return 0;
    }
    match a {
        0x02 => status(FanId::One, k),
        0x03 => status(FanId::Two, k),
        0x06 => reading::extended(
            k.channels.local.reading,
            k.channels.remote1.reading,
            k.channels.remote2.reading,
        ),
        0x0A => reading::byte_of(k.channels.local.reading),
        0x0B => reading::byte_of(k.channels.remote1.reading),
        0x0C => reading::byte_of(k.channels.remote2.reading),
        _ => stored::stored_in(k.registers, a),
    }
}

// ---- outputs

// Whether a status byte has a bit that counts for INT: bit 5 only where its channel is enabled.
fn is_pending(on: bool, status: u8) -> bool
    ensures { result ≡ pending_in on status }
{
    let counted = if on { 0xFF } else { 0xDF };
    0 < status & counted
}

// Whether INT is to be asserted, unless an alert has let it go.
#[tactic(auto, unfolding(crate::specs::Outputs::int_due_of))]
pub fn int_due(k: Chip) -> bool
    ensures { result ≡ int_due_of k }
{
    let on1 = stored::channel_enabled(ChannelId::Remote1, k.registers.config2);
    let on2 = stored::channel_enabled(ChannelId::Remote2, k.registers.config2);
    integer::bit(k.registers.config1, 1)
        & (is_pending(on1, status(FanId::One, k)) | is_pending(on2, status(FanId::Two, k)))
}

#[tactic(auto, unfolding(crate::specs::Outputs::fault_of))]
fn fault(k: Chip) -> bool
    ensures { result ≡ fault_of k }
{
    integer::bit(k.registers.config1, 4) & ((k.fans.one.run == 5) | (k.fans.two.run == 5))
}

// The outputs; INT is not asserted while it is let go.
#[tactic(auto, unfolding(crate::specs::Outputs::shown_of))]
pub fn shown(k: Chip, silenced: bool) -> Shown
    ensures { result ≡ shown_of k silenced }
{
    Shown {
        int: u8::from(int_due(k) & !silenced),
        therm: u8::from(channel::therm(k.channels)),
        fault: u8::from(fault(k)),
        duty1: k.fans.one.drive.duty,
        duty2: k.fans.two.drive.duty,
    }
}
