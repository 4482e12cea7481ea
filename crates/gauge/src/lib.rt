#![tactic(auto)]
// The panel of a keeper (T-06 of document 02): its temperatures in degrees, the speeds of its fans in revolutions a minute.
// Each figure is one division of two whole numbers, rounded once; a temperature loses nothing by it.
ghost use Rattle.std.specs.Prelude.{◌≡◌, ◌≤◌};
ghost use Rattle.rules.specs.Panels.{degrees_of, divisor_of, speed_of};
ghost use Rattle.gauge.specs.Gauges.{unheld_of, fan_speed_of, panel_in, paneled_of};

use chip::Chip;
use event::{FanSpeed, Panel, Refusal};
use keeper::Keeper;
use stored::FanRegisters;

// Eighths of a degree, of a reading that is held with 1024 added.
fn eighths(reading: u16) -> i32
    ensures { result ≡ unheld_of reading }
{
    i32::from(reading) - 1024
}

fn degrees(reading: u16) -> f64
    ensures { result ≡ degrees_of (unheld_of reading) }
{
    f64::from(eighths(reading)) / 8.0
}

// The divisor of the speed range, by bits 7:6 of 0x20 or 0x21.
// Stays: a code of the data sheet; an enum would be made of it by the same arms.
#[tactic(auto, unfolding(rules::specs::Panels::divisor_of))]
fn divisor(characteristics: u8) -> u32
    ensures { (result ≡ divisor_of characteristics) × (result ≤ 8) }
{
    match characteristics / 64 {
        0 => 1,
        1 => 2,
        2 => 4,
        _ => 8,
    }
}

#[tactic(auto, unfolding(rules::specs::Panels::speed_of))]
fn speed(count: u8, characteristics: u8) -> FanSpeed
    ensures { result ≡ speed_of count characteristics }
{
    match count {
        0 => FanSpeed::NotMeasured,
        255 => FanSpeed::Stalled,
        _ => FanSpeed::Speed(675000.0 / f64::from(u32::from(count) * divisor(characteristics))),
    }
}

// Of a fan, by its registers as they stand.
fn fan_speed(r: FanRegisters) -> FanSpeed
    ensures { result ≡ fan_speed_of r }
{
    speed(r.speed, r.characteristics)
}

#[tactic(auto, unfolding(crate::specs::Gauges::panel_in))]
fn panel_in(k: Chip) -> Panel
    ensures { result ≡ panel_in k }
{
    Panel {
        local: degrees(k.channels.local.reading),
        remote1: degrees(k.channels.remote1.reading),
        remote2: degrees(k.channels.remote2.reading),
        fan1: fan_speed(k.registers.fans.one),
        fan2: fan_speed(k.registers.fans.two),
    }
}

// 1 before the first power.
pub fn panel(k: Keeper) -> Result<Panel, Refusal>
    ensures { result ≡ paneled_of k }
{
    let device = k.device()?;
    Ok(panel_in(device.chip))
}
