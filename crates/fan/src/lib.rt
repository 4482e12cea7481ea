#![tactic(auto)]
// A fan, and what an event makes of it: duty and spin-up, run of failures, alarm speed, status bits.
// One function serves both.
ghost use Rattle.std.specs.Prelude.{◌≡◌};
ghost use Rattle.rules.specs.Fields.{assignment};
ghost use Rattle.rules.specs.Targets.{assigned_by, demand_if};
ghost use Rattle.drive.specs.Tach.{failed_of};
ghost use Rattle.input.specs.Inputs.{byte_in};
ghost use Rattle.part.specs.Each.{of_fan};
ghost use Rattle.fan.specs.Fans.{channel_demand, fan_target, setting_of, prior_fan, judges_fan, fan_input_of, fan_run, fan_under, fan_after};

use channel::Channel;
use drive::{Drive, FanInput, Setting};
use event::Kind;
use input::Input;
use part::{ChannelId, FanId, PerChannel};
use stored::{ChannelRegisters, Context, Registers};

// Duty and spin-up, run of failures, whether it is at alarm speed; then the alarm and fault status bits.
#[derive(Clone, Copy, Default)]
pub struct Fan {
    pub drive: Drive,
    pub run: u8,
    pub alarmed: bool,
    pub alarm: bool,
    pub fault: bool,
}

// What a channel asks of a fan in automatic mode.
pub fn channel_asked(f: FanId, c: ChannelId, s: Registers, l: ChannelRegisters, ch: Channel) -> u8
    ensures { result ≡ demand_if (assigned_by (assignment s.config1) f c) (channel_demand f s.speeds l ch) }
{
    let assigned = demand::assigned(s.config1 / 32 % 4, f, c);
    if assigned & ch.error {
        return 240;
    }
    demand::asked(
        assigned,
        ch.flag,
        demand::speed_code(f, s.speeds),
        l.control,
        ch.reading,
    )
}

// The duty that a fan is to have.
#[tactic(auto, unfolding(crate::specs::Fans::fan_target, rules::specs::Targets::target_of))]
fn fan_target(f: FanId, s: Registers, cs: PerChannel<Channel>) -> u8
    ensures { result ≡ fan_target f s cs }
{
    if integer::bit(s.config1, 7) {
        let asked = cs.map(|c, ch| channel_asked(f, c, s, s.channels.get(c), ch));
        demand::largest(asked)
    } else {
        demand::manual(f, s.speeds)
    }
}

// What registers, pin and channels ask of a fan.
// Stays: the three are passed one by one, since each of the two callers would make a struct of them for this call alone.
#[tactic(auto, unfolding(crate::specs::Fans::setting_of))]
pub fn setting(f: FanId, pin_low: bool, s: Registers, cs: PerChannel<Channel>) -> Setting
    ensures { result ≡ setting_of f pin_low s cs }
{
    let own = s.fans.get(f);
    Setting {
        enabled: stored::output_enabled(f, s.config2),
        overridden: demand::overridden(pin_low, s.behaviour, channel::therm(cs)),
        filtered: stored::filter_enabled(f, s.filter),
        target: fan_target(f, s, cs),
        rate: drive::ramp_rate(s.filter),
        spin_up: drive::spin_up_clocks(own.characteristics),
    }
}

// The fan that an event finds: one at rest before a start afresh.
fn prior(i: Input, was: Fan) -> Fan
    ensures { result ≡ prior_fan i was }
{
    if input::is_restart(i) {
        Fan::default()
    } else {
        was
    }
}

// Whether the event is a judged count of the fan, and then whether it is a failure.
fn judges(f: FanId, m: Context, d: Drive) -> bool
    ensures { result ≡ judges_fan f m d }
{
    input::is_count(f, m.input) && drive::judged(stored::tach_enabled(f, m.registers.config2), d)
}

fn fails(f: FanId, m: Context, judged: bool) -> bool
    ensures { result ≡ failed_of judged (of_fan f m.registers.fans).limit (byte_in m.input) }
{
    let own = m.registers.fans.get(f);
    drive::failed(judged, own.limit, input::byte_in(m.input))
}

fn fan_input(f: FanId, failed: bool, i: Input) -> FanInput
    ensures { result ≡ fan_input_of f failed i }
{
    FanInput {
        clock: input::is_a(Kind::Clock, i),
        period: input::is_period(f, i),
        failed,
    }
}

fn run_after(tach: bool, judged: bool, failed: bool, was: u8) -> u8
    ensures { result ≡ fan_run tach judged failed was }
{
    if tach {
        drive::run_after(judged, failed, was)
    } else {
        0
    }
}

// The fan after an event, from what is asked of it then and the fan before it.
#[tactic(auto, unfolding(crate::specs::Fans::fan_under))]
fn fan_under(f: FanId, s: Setting, m: Context, w: Fan) -> Fan
    ensures { result ≡ fan_under f s m w }
{
    let judged = judges(f, m, w.drive);
    let failed = fails(f, m, judged);
    let alarmed = drive::at_alarm(s);
    let read = input::is_read(stored::status_at(f), m.pointer, m.input);
    let tach = stored::tach_enabled(f, m.registers.config2);
    Fan {
        drive: drive::driven(s, fan_input(f, failed, m.input), w.drive),
        run: run_after(tach, judged, failed, w.run),
        alarmed,
        alarm: input::bit_after(alarmed & !w.alarmed, read, w.alarm),
        fault: input::bit_after(failed, read, w.fault),
    }
}

// A fan under registers, pin and channels as they stand after the event.
#[tactic(auto, unfolding(crate::specs::Fans::fan_after))]
pub fn fan_after(f: FanId, pin_low: bool, m: Context, cs: PerChannel<Channel>, was: Fan) -> Fan
    ensures { result ≡ fan_after f pin_low m cs was }
{
    fan_under(
        f,
        setting(f, pin_low, m.registers, cs),
        m,
        prior(m.input, was),
    )
}
