#![tactic(auto)]
// Why a fan of a keeper has its duty (T-03 of document 02), the first of eight reasons that holds with its numbers, and since when it turns (T-07).
// It stands beside the keeper and changes nothing.
ghost use Rattle.std.specs.Prelude.{◌≡◌, not, ◌&&◌, eqb};
ghost use Rattle.rules.specs.Reasons.{lowest_with, ramp_to};
ghost use Rattle.reason.specs.Reasoning.{latched_in, asking_in, reason_under, reason_of};
ghost use Rattle.reason.specs.Aging.{explained_by, fan_numbered, explanation_of, aged_of};

use channel::Channel;
use chip::Chip;
use device::Device;
use drive::{Drive, Setting};
use event::{Explanation, Ramp, Reason, Refusal};
use keeper::Keeper;
use part::{ChannelId, FanId, PerChannel};
use stored::Registers;

// The first of the channels that is named; the last, where neither of the others is.
fn lowest_with(local: bool, remote1: bool) -> ChannelId
    ensures { result ≡ lowest_with local remote1 }
{
    if local {
        return ChannelId::Local;
    }
    if remote1 {
        ChannelId::Remote1
    } else {
        ChannelId::Remote2
    }
}

// The lowest channel whose latch is on.
fn latched_in(cs: PerChannel<Channel>) -> ChannelId
    ensures { result ≡ latched_in cs }
{
    lowest_with(cs.local.latch, cs.remote1.latch)
}

// The lowest channel that asks for the target, the largest demand.
#[tactic(auto, unfolding(crate::specs::Reasoning::asking_in))]
fn asking_in(f: FanId, target: u8, s: Registers, cs: PerChannel<Channel>) -> ChannelId
    ensures { result ≡ asking_in f target s cs }
{
    let local = fan::channel_asked(f, ChannelId::Local, s, s.channels.local, cs.local);
    let remote1 = fan::channel_asked(f, ChannelId::Remote1, s, s.channels.remote1, cs.remote1);
    lowest_with(local == target, remote1 == target)
}

// How far the duty is from the target, and on which side.
fn ramp_to(target: u8, duty: u8) -> Ramp
    ensures { result ≡ ramp_to target duty }
{
    Ramp {
        left: target.abs_diff(duty),
        up: duty < target,
        target,
    }
}

// Whether a filtered fan is on its way.
fn on_the_way(s: Setting, w: Drive) -> bool
    ensures { result ≡ (s.filtered && not (eqb w.duty s.target)) }
{
    s.filtered & (w.duty != s.target)
}

// By what is asked of a fan, and by its duty and spin-up.
#[tactic(auto, unfolding(crate::specs::Reasoning::reason_under))]
fn reason_under(f: FanId, s: Setting, w: Drive, k: Chip) -> Reason
    ensures { result ≡ reason_under f s w k }
{
    if !s.enabled {
        return Reason::Disabled;
    }
    if k.port.pin_low {
        return Reason::PinLow;
    }
    if s.overridden {
        return Reason::Therm(latched_in(k.channels));
    }
    if s.target == 0 {
        return Reason::NoTarget;
    }
    if 0 < w.left {
        return Reason::SpinUp(w.left);
    }
    if on_the_way(s, w) {
        return Reason::Ramp(ramp_to(s.target, w.duty));
    }
    if !integer::bit(k.registers.config1, 7) {
        return Reason::Manual;
    }
    Reason::Demand(asking_in(f, s.target, k.registers, k.channels))
}

#[tactic(auto, unfolding(crate::specs::Reasoning::reason_of))]
fn reason_of(f: FanId, k: Chip) -> Reason
    ensures { result ≡ reason_of f k }
{
    let s = fan::setting(f, k.port.pin_low, k.registers, k.channels);
    reason_under(f, s, k.fans.get(f).drive, k)
}

// Of a fan, where there is power.
fn explained(f: FanId, d: Device) -> Explanation
    ensures { result ≡ explained_by f d }
{
    let reason = reason_of(f, d.chip);
    let age = device::age(f, d.stamps);
    Explanation { reason, age }
}

// The fan of a number: 3 for one that is neither fan's.
fn fan_numbered(fan: i32) -> Result<FanId, Refusal>
    ensures { result ≡ fan_numbered fan }
{
    match fan {
        1 => Ok(FanId::One),
        2 => Ok(FanId::Two),
        _ => Err(Refusal::NoSuchPart),
    }
}

// Why the fan of a number has its duty, and its age: 1 before the first power, 3 for a number that is neither fan's.
// Stays: a fan by number, here and in `age`: README promises 3 for one that is no fan's.
// Inlined, so that of a keeper without power no device is copied.
#[inline(always)]
pub fn why(k: Keeper, fan: i32) -> Result<Explanation, Refusal>
    ensures { result ≡ explanation_of k fan }
{
    let device = k.device()?;
    let fan = fan_numbered(fan)?;
    Ok(explained(fan, device))
}

// Its age alone, the clock events since it started, modulo 65,536; 1 and 3 as before.
#[tactic(auto, unfolding(crate::specs::Aging::aged_of))]
pub fn age(k: Keeper, fan: i32) -> Result<u16, Refusal>
    ensures { result ≡ aged_of k fan }
{
    Ok(why(k, fan)?.age)
}
