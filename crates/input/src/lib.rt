#![tactic(auto)]
// An event as plain numbers, and what it is to each part of the chip.
// Every rule above asks these tests; a new kind of event is one clause here. Nothing above has a signed number.
ghost use Rattle.std.specs.Prelude.{◌≡◌, false, cond};
ghost use Rattle.rules.specs.Events.{channel_number, fan_number};
ghost use Rattle.input.specs.Inputs.{plain_of, eighths_held, input_of, is_a, byte_in, is_sample, is_report, is_count, is_period, is_write, is_read};
ghost use Rattle.input.specs.Inputs.{is_reset, is_restart, bit_after};

use event::{Event, Kind};
use part::{ChannelId, FanId};

// What stands for every negative number.
// Stays: `judge::reply`, `Chip::accept` and `Device::accept` promise an answer for every Input, out of range too, which an enum of accepted acts excludes.
const NEGATIVE: u32 = 2147483648;

// What stands for every val that is no sample.
const NO_SAMPLE: u16 = 2048;

// The kind of an event, and its numbers, each as a number from 0 up. A val is also held as a sample.
// None: a number that is no kind's, as those from 11 up.
#[derive(Clone, Copy)]
pub struct Input {
    pub kind: Option<Kind>,
    pub who: u32,
    pub arg: u32,
    pub val: u32,
    pub sample: u16,
}

fn plain(v: i32) -> u32
    ensures { result ≡ plain_of v }
{
    u32::try_from(v).unwrap_or(NEGATIVE)
}

fn eighths_held(v: i32) -> u16
    ensures { result ≡ eighths_held v }
{
    integer::eighths(v).unwrap_or(NO_SAMPLE)
}

// Stays: by name and no `From`, since docs and the laws of history speak of `input_of`, and a call of either reads alike.
pub fn input_of(e: Event) -> Input
    ensures { result ≡ input_of e }
{
    let kind = Some(event::kind_of(e));
    let n = event::numbers_of(e);
    let who = plain(n.who);
    let arg = plain(n.arg);
    let val = plain(n.val);
    let sample = eighths_held(n.val);
    Input {
        kind,
        who,
        arg,
        val,
        sample,
    }
}

// ---- what an event is

pub fn is_a(k: Kind, i: Input) -> bool
    ensures { result ≡ is_a k i }
{
    i.kind == Some(k)
}

// The byte that a write or a count carries.
pub fn byte_in(i: Input) -> u8
    ensures { result ≡ byte_in i }
{
    (i.val % 256) as u8
}

pub fn channel_number(c: ChannelId) -> u32
    ensures { result ≡ channel_number c }
{
    c as u32
}

pub fn fan_number(f: FanId) -> u32
    ensures { result ≡ fan_number f }
{
    1 + f as u32
}

// Stays: of the four tests below each is one line, and a call of one function for two of them, told kind and number, is as long.

// A sample of the channel.
pub fn is_sample(c: ChannelId, i: Input) -> bool
    ensures { result ≡ is_sample c i }
{
    is_a(Kind::Sample, i) & (i.who == channel_number(c))
}

// A report on the diode of the channel.
pub fn is_report(c: ChannelId, i: Input) -> bool
    ensures { result ≡ is_report c i }
{
    is_a(Kind::Diode, i) & (i.who == channel_number(c))
}

// A count of the fan.
pub fn is_count(f: FanId, i: Input) -> bool
    ensures { result ≡ is_count f i }
{
    is_a(Kind::Tach, i) & (i.who == fan_number(f))
}

// A period of the fan.
pub fn is_period(f: FanId, i: Input) -> bool
    ensures { result ≡ is_period f i }
{
    is_a(Kind::Period, i) & (i.who == fan_number(f))
}

// A write to the register at an address.
pub fn is_write(address: u8, i: Input) -> bool
    ensures { result ≡ is_write address i }
{
    is_a(Kind::Write, i) & (i.arg == u32::from(address))
}

// A read of it.
pub fn is_read(address: u8, pointer: u8, i: Input) -> bool
    ensures { result ≡ is_read address pointer i }
{
    is_a(Kind::Read, i) & (pointer == address)
}

// The software reset.
pub fn is_reset(i: Input) -> bool
    ensures { result ≡ is_reset i }
{
    is_write(0x01, i) & integer::bit(byte_in(i), 7)
}

// Power or the software reset.
pub fn is_restart(i: Input) -> bool
    ensures { result ≡ is_restart i }
{
    is_a(Kind::Power, i) | is_reset(i)
}

// ---- bits and flags after an event

// A bit that an event may set or clear; what sets it wins.
pub fn bit_after(sets: bool, clears: bool, was: bool) -> bool
    ensures { result ≡ bit_after sets clears was }
{
    sets | (!clears & was)
}

// A flag that is off after a start afresh, and `now` after an event of its own.
pub fn flag_after(restarts: bool, own: bool, now: bool, was: bool) -> bool
    ensures { result ≡ cond restarts false (cond own now was) }
{
    !restarts & if own { now } else { was }
}
