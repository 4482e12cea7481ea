#![tactic(auto)]
// What the channels ask of a fan, on plain numbers: demand, assignment, target, override.
// A duty is in slots of 240; a reading has 1024 added.
ghost use Rattle.std.specs.Prelude.{◌≡◌, ◌+◌, ◌-◌, ◌*◌, max};
ghost use Rattle.rules.specs.Fields.{speed_code};
ghost use Rattle.rules.specs.Targets.{tmin_of, range_of, is_own, assigned_by, demand_if};
ghost use Rattle.demand.specs.Demand.{slope_of, demand_of, overridden_of};

use part::{ChannelId, FanId, PerChannel};

// The slots that a reading this far above Tmin adds. R is 5 * 2^code up to 80, so 20 x / R is 4 x / 2^code: a shift, no division.
#[tactic(auto, using(crate::proofs::Laws::shifted))]
pub fn slope(above: u16, control: u8) -> u32
    ensures { result ≡ slope_of above (range_of control) }
{
    (4 * u32::from(above)) >> (control % 8).min(4)
}

// How far a reading is above Tmin, or 0.
fn above_tmin(reading: u16, control: u8) -> u16
    ensures { result ≡ reading - (8 * tmin_of control + 1024) }
{
    reading.saturating_sub(1024 + 32 * u16::from(control / 8))
}

// What a channel demands of a fan with minimum code m.
#[tactic(auto, using(crate::proofs::Laws::slope_small), unfolding(crate::specs::Demand::demand_of))]
fn demand(flag: bool, m: u8, control: u8, reading: u16) -> u8
    ensures { result ≡ demand_of flag m (tmin_of control) (range_of control) reading }
{
    if flag {
        (16 * u32::from(m) + slope(above_tmin(reading, control), control)).min(240) as u8
    } else {
        0
    }
}

// What it asks of a fan that it is assigned to; of another nothing, and its demand is not worked out then.
pub fn asked(assigned: bool, flag: bool, m: u8, control: u8, reading: u16) -> u8
    ensures { result ≡ demand_if assigned (demand_of flag m (tmin_of control) (range_of control) reading) }
{
    if assigned {
        demand(flag, m, control, reading)
    } else {
        0
    }
}

// Stays: each fan has another half of the byte, and two formulas are plainer than a shift by a fan.
pub fn speed_code(fan: FanId, speeds: u8) -> u8
    ensures { result ≡ speed_code fan speeds }
{
    match fan {
        FanId::One => speeds % 16,
        FanId::Two => speeds / 16,
    }
}

// Whether a fan follows a channel in automatic mode, by bits 6, 5 of 0x00.
// Stays: the bits as a number, as the rule `assigned_by` takes them; an enum would have to be made of them by the same four arms.
#[tactic(auto, unfolding(rules::specs::Targets::assigned_by))]
pub fn assigned(assignment: u8, fan: FanId, channel: ChannelId) -> bool
    ensures { result ≡ assigned_by assignment fan channel }
{
    match assignment {
        0 => is_own(fan, channel),
        1 => channel == ChannelId::Remote1,
        2 => channel == ChannelId::Remote2,
        _ => true,
    }
}

// Stays: the match is the rule itself, which channel is a fan's own.
fn is_own(fan: FanId, channel: ChannelId) -> bool
    ensures { result ≡ is_own fan channel }
{
    match fan {
        FanId::One => channel == ChannelId::Remote1,
        FanId::Two => channel == ChannelId::Remote2,
    }
}

// The target in automatic mode, from what the channels ask; and in manual mode.
pub fn largest(asked: PerChannel<u8>) -> u8
    ensures { result ≡ max asked.local (max asked.remote1 asked.remote2) }
{
    asked.local.max(asked.remote1.max(asked.remote2))
}

#[tactic(auto, using(crate::proofs::Laws::code_fits))]
pub fn manual(fan: FanId, speeds: u8) -> u8
    ensures { result ≡ 16 * speed_code fan speeds }
{
    16 * speed_code(fan, speeds)
}

pub fn overridden(pin_low: bool, behaviour: u8, therm: bool) -> bool
    ensures { result ≡ overridden_of pin_low behaviour therm }
{
    pin_low || (integer::bit(behaviour, 7) && therm)
}
