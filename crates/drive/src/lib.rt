#![tactic(auto)]
// What one event does to a fan, on plain numbers: ramp, spin-up, duty, alarm speed and judged tach counts.
// A duty is in slots of 240.
ghost use Rattle.std.specs.Prelude.{◌≡◌};
ghost use Rattle.rules.specs.Duties.{rate_of, spin_up_of, nearer};
ghost use Rattle.drive.specs.Drive.{duty_of, starts_of, left_of, driven_of, alarm_of};
ghost use Rattle.drive.specs.Tach.{judged_of, failed_of, run_of};

// What registers, pin and channels ask of a fan after an event.
// Stays: `filtered` beside `rate`, which its register holds while the filter is off too, so neither tells of the other.
#[derive(Clone, Copy)]
pub struct Setting {
    pub enabled: bool,
    pub overridden: bool,
    pub filtered: bool,
    pub target: u8,
    pub rate: u8,
    pub spin_up: u8,
}

// What an event is to a fan: a clock, a period of its own, a failed measurement of its own.
#[derive(Clone, Copy)]
pub struct FanInput {
    pub clock: bool,
    pub period: bool,
    pub failed: bool,
}

// A fan's duty, and the clock events that are left of its spin-up.
#[derive(Clone, Copy, Default)]
pub struct Drive {
    pub duty: u8,
    pub left: u8,
}

// Stays: a code of the data sheet, here and in the spin-up; an enum would be made of it by the same arms.
#[tactic(auto, unfolding(rules::specs::Duties::rate_of))]
pub fn ramp_rate(filter: u8) -> u8
    ensures { result ≡ rate_of filter }
{
    match filter / 32 % 4 {
        0 => 1,
        1 => 2,
        2 => 4,
        _ => 8,
    }
}

#[tactic(auto, unfolding(rules::specs::Duties::spin_up_of))]
pub fn spin_up_clocks(characteristics: u8) -> u8
    ensures { result ≡ spin_up_of characteristics }
{
    match characteristics % 8 {
        0 => 2,
        1 => 4,
        2 => 6,
        3 => 8,
        4 => 10,
        5 => 20,
        6 => 40,
        _ => 80,
    }
}

// Nearer to the target by an amount, never past it.
#[tactic(auto, using(rules::proofs::SoundLaws::nearer_is))]
pub fn nearer(amount: u32, target: u8, duty: u8) -> u8
    ensures { result ≡ nearer amount target duty }
{
    let amount = amount.min(255) as u8;
    target.clamp(duty.saturating_sub(amount), duty.saturating_add(amount))
}

#[tactic(auto, unfolding(crate::specs::Drive::duty_of))]
pub fn duty_after(s: Setting, period: bool, spinning: bool, was: u8) -> u8
    ensures { result ≡ duty_of s period spinning was }
{
    if !s.enabled {
        return 0;
    }
    if s.overridden {
        return 240;
    }
    if s.target == 0 {
        return 0;
    }
    if spinning {
        return 240;
    }
    if !s.filtered {
        return s.target;
    }
    if period {
        nearer(u32::from(s.rate), s.target, was)
    } else {
        was
    }
}

#[tactic(auto, unfolding(crate::specs::Drive::starts_of))]
pub fn starts(s: Setting, b: FanInput, was: u8) -> bool
    ensures { result ≡ starts_of s b was }
{
    b.failed || (was == 0 && s.enabled && (0 < s.target || s.overridden))
}

#[tactic(auto, unfolding(crate::specs::Drive::left_of))]
fn spin_left(s: Setting, b: FanInput, d: Drive) -> u8
    ensures { result ≡ left_of s b d }
{
    if starts(s, b, d.duty) {
        s.spin_up
    } else if b.clock {
        d.left.saturating_sub(1)
    } else {
        d.left
    }
}

// A fan after an event.
#[tactic(auto, unfolding(crate::specs::Drive::driven_of))]
pub fn driven(s: Setting, b: FanInput, d: Drive) -> Drive
    ensures { result ≡ driven_of s b d }
{
    let left = spin_left(s, b, d);
    let duty = duty_after(s, b.period, 0 < left, d.duty);
    Drive {
        duty,
        left: if duty == 0 { 0 } else { left },
    }
}

// Whether a fan is at alarm speed.
pub fn at_alarm(s: Setting) -> bool
    ensures { result ≡ alarm_of s }
{
    s.enabled && s.overridden
}

// ---- tach counts

pub fn judged(tach: bool, d: Drive) -> bool
    ensures { result ≡ judged_of tach d.duty d.left }
{
    tach && 0 < d.duty && d.left == 0
}

pub fn failed(judged: bool, limit: u8, count: u8) -> bool
    ensures { result ≡ failed_of judged limit count }
{
    judged && limit < count
}

// The run of failures after a count.
#[tactic(auto, unfolding(crate::specs::Tach::run_of))]
pub fn run_after(judged: bool, failed: bool, run: u8) -> u8
    ensures { result ≡ run_of judged failed run }
{
    if failed {
        run.saturating_add(1).min(5)
    } else if judged {
        0
    } else {
        run
    }
}
