#![tactic(auto)]
// The temperature channels, and what an event makes of them: reading, THERM latch, run flag, status bits, diode error.
// One function serves all three.
mod status;

ghost use Rattle.std.specs.Prelude.{◌≡◌, false};
ghost use Rattle.rules.specs.Targets.{tmin_of};
ghost use Rattle.channel.specs.Channels.{sampled_in, reading_after, flag_at_sample, channel_on_in, error_in, error_after, passes_by};
ghost use Rattle.channel.specs.Channels.{channel_kept, channel_after, reads_status, untouched_in, channels_after, therm_of};

use event::Kind;
use input::Input;
use part::{ChannelId, FanId, PerChannel};
use stored::Context;

// The last reading, the THERM latch and the run flag; then the high, low and THERM status bits, and the diode error.
#[derive(Clone, Copy)]
pub struct Channel {
    pub reading: u16,
    pub latch: bool,
    pub flag: bool,
    pub high: bool,
    pub low: bool,
    pub therm: bool,
    pub error: bool,
}

// A channel that never had power: its reading is 0, held as 1024.
impl Default for Channel {
    ghost is_default = { λ c. c ≡ record { reading = 1024; latch = false; flag = false; high = false; low = false; therm = false; error = false } };

    fn default() -> Channel {
        Channel {
            reading: 1024,
            latch: false,
            flag: false,
            high: false,
            low: false,
            therm: false,
            error: false,
        }
    }
}

// The reading that a sample makes, by the channel's offset register as it stands.
#[tactic(auto, unfolding(crate::specs::Channels::sampled_in))]
fn sampled(c: ChannelId, m: Context) -> u16
    ensures { result ≡ sampled_in c m }
{
    let l = m.registers.channels.get(c);
    reading::measured(c, l.offset, m.input.sample)
}

#[tactic(auto, unfolding(crate::specs::Channels::reading_after))]
fn reading_after(c: ChannelId, m: Context, was: u16) -> u16
    ensures { result ≡ reading_after c m was }
{
    if input::is_restart(m.input) {
        1024
    } else if input::is_sample(c, m.input) {
        sampled(c, m)
    } else {
        was
    }
}

// A flag that a sample of the channel moves.
#[tactic(auto, unfolding(crate::specs::Channels::flag_at_sample))]
fn flag_at_sample(c: ChannelId, m: Context, next: bool, was: bool) -> bool
    ensures { result ≡ flag_at_sample c m next was }
{
    input::flag_after(
        input::is_restart(m.input),
        input::is_sample(c, m.input),
        next,
        was,
    )
}

fn tmin(control: u8) -> u8
    ensures { result ≡ tmin_of control }
{
    4 * (control / 8 % 32)
}

// Whether the channel's enable bit is 1.
fn is_on(c: ChannelId, m: Context) -> bool
    ensures { result ≡ channel_on_in c m }
{
    stored::channel_enabled(c, m.registers.config2)
}

// The diode error that power brings; it stays until the next power or report on the diode.
// Stays: each channel's is another formula, so a table by channel would be no plainer.
fn error_in(c: ChannelId, i: Input) -> bool
    ensures { result ≡ error_in c i }
{
    match c {
        ChannelId::Local => false,
        ChannelId::Remote1 => i.arg == 1,
        ChannelId::Remote2 => i.val == 1,
    }
}

#[tactic(auto, unfolding(crate::specs::Channels::error_after))]
fn error_after(c: ChannelId, i: Input, was: bool) -> bool
    ensures { result ≡ error_after c i was }
{
    if input::is_a(Kind::Power, i) {
        return error_in(c, i);
    }
    if input::is_report(c, i) {
        i.val == 1
    } else {
        was
    }
}

// An event that is none of the channel's: no start afresh, no sample of it, no report on its diode, no read.
fn passes_by(c: ChannelId, i: Input) -> bool
    ensures { result ≡ passes_by c i }
{
    !(input::is_restart(i)
        | input::is_sample(c, i)
        | input::is_report(c, i)
        | input::is_a(Kind::Read, i))
}

// The channel after such an event: at most its enable bit has become 0.
fn channel_kept(on: bool, was: Channel) -> Channel
    ensures { result ≡ channel_kept on was }
{
    Channel {
        high: was.high & on,
        low: was.low & on,
        therm: was.therm & on,
        ..was
    }
}

fn channel_moved(c: ChannelId, m: Context, was: Channel) -> Channel
    ensures { result ≡ channel_after c m was }
{
    let l = m.registers.channels.get(c);
    let t = sampled(c, m);
    let latch = flag_at_sample(c, m, reading::latched(was.latch, l.therm, t), was.latch);
    let runs = reading::running(was.flag, tmin(l.control), t);
    let flag = flag_at_sample(c, m, runs, was.flag);
    let limits = status::limit_bits_in(c);
    Channel {
        reading: reading_after(c, m, was.reading),
        latch,
        flag,
        high: status::bit_after(c, limits, m, reading::is_high(l.high, t), was.high),
        low: status::bit_after(c, limits, m, reading::is_low(l.low, t), was.low),
        therm: status::bit_after(c, status::therm_bit_in(c), m, !was.latch & latch, was.therm),
        error: error_after(c, m.input, was.error),
    }
}

fn channel_after(c: ChannelId, m: Context, was: Channel) -> Channel
    ensures { result ≡ channel_after c m was }
{
    if passes_by(c, m.input) {
        channel_kept(is_on(c, m), was)
    } else {
        channel_moved(c, m, was)
    }
}

// A read of either status register.
fn reads_status(m: Context) -> bool
    ensures { result ≡ reads_status m }
{
    input::is_read(stored::status_at(FanId::One), m.pointer, m.input)
        | input::is_read(stored::status_at(FanId::Two), m.pointer, m.input)
}

// An event that is none of any channel's, while all of them are enabled.
fn untouched(m: Context) -> bool
    ensures { result ≡ untouched_in m }
{
    let none = !(input::is_restart(m.input)
        | matches!(m.input.kind, Some(Kind::Sample | Kind::Diode))
        | reads_status(m));
    none & is_on(ChannelId::Local, m) & is_on(ChannelId::Remote1, m) & is_on(ChannelId::Remote2, m)
}

// The three channels.
pub fn channels_after(m: Context, cs: PerChannel<Channel>) -> PerChannel<Channel>
    ensures { result ≡ channels_after m cs }
{
    if untouched(m) {
        return cs;
    }
    cs.map(|c, was| channel_after(c, m, was))
}

// Whether THERM is asserted.
pub fn therm(cs: PerChannel<Channel>) -> bool
    ensures { result ≡ therm_of cs }
{
    cs.local.latch | cs.remote1.latch | cs.remote2.latch
}
