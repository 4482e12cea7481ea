#![tactic(auto)]
// Readings in eighths of a degree: what a sample makes, the bytes that show them, both ways, and the two kinds of hysteresis.
// A reading of t eighths is held as t + 1024, so that no number here is negative.
ghost use Rattle.std.specs.Prelude.{◌≡◌, ◌+◌, ◌*◌};
ghost use Rattle.reading.specs.Reading.{byte_of, remainder_of, reading_of, extended_of, remainder_in};
ghost use Rattle.reading.specs.Limits.{edge_of, hysteresis_of, latched_of, running_of, is_high, is_low};
ghost use Rattle.reading.specs.Offset.{top_of, shifted_of, measured_of};

use part::ChannelId;

// ---- samples and offsets

// The highest reading.
// Stays: two numbers by one match; a table by channel would hold three.
fn top(c: ChannelId) -> u16
    ensures { result ≡ top_of c }
{
    match c {
        ChannelId::Local => 2046,
        ChannelId::Remote1 | ChannelId::Remote2 => 2047,
    }
}

// A sample and eight times the degrees of an offset, which its sign bit subtracts; not below 0.
fn shifted(offset: u8, sample: u16) -> u32
    ensures { result ≡ shifted_of offset sample }
{
    let sample = u32::from(sample);
    let eighths = 8 * u32::from(offset % 16);
    if integer::bit(offset, 7) {
        sample.saturating_sub(eighths)
    } else {
        sample + eighths
    }
}

// The reading that a sample makes, by the byte of the channel's offset register.
#[tactic(auto, unfolding(crate::specs::Offset::measured_of))]
pub fn measured(c: ChannelId, offset: u8, sample: u16) -> u16
    ensures { result ≡ measured_of c offset sample }
{
    shifted(offset, sample).min(u32::from(top(c))) as u16
}

// ---- readings and bytes

pub fn byte_of(reading: u16) -> u8
    ensures { result ≡ byte_of reading }
{
    ((reading / 8 + 128) % 256) as u8
}

pub fn remainder_of(reading: u16) -> u8
    ensures { result ≡ remainder_of reading }
{
    (reading % 8) as u8
}

pub fn reading_of(byte: u8, remainder: u8) -> u16
    ensures { result ≡ reading_of byte remainder }
{
    8 * u16::from(byte.wrapping_add(128)) + u16::from(remainder)
}

// Register 0x06, from the three readings.
// Stays: three numbers; the caller has whole channels, and would make a PerChannel of readings for this call alone.
pub fn extended(local: u16, remote1: u16, remote2: u16) -> u8
    ensures { result ≡ extended_of (remainder_of local) (remainder_of remote1) (remainder_of remote2) }
{
    remainder_of(remote1) + 8 * remainder_of(remote2) + 64 * (remainder_of(local) / 2)
}

// A channel's remainder in register 0x06.
// Stays: each channel has other bits of the byte, by another formula.
pub fn remainder_in(channel: ChannelId, byte: u8) -> u8
    ensures { result ≡ remainder_in channel byte }
{
    match channel {
        ChannelId::Local => 2 * (byte / 64),
        ChannelId::Remote1 => byte % 8,
        ChannelId::Remote2 => byte / 8 % 8,
    }
}

// ---- limits

// A limit's byte, as a reading.
fn edge(limit: u8) -> u16
    ensures { result ≡ edge_of limit }
{
    8 * u16::from(limit.wrapping_add(128))
}

// On above the edge, off more than five degrees below it, else as it was.
fn hysteresis(on: bool, edge: u16, reading: u16) -> bool
    ensures { result ≡ hysteresis_of on edge reading }
{
    if edge < reading {
        true
    } else if reading < edge.saturating_sub(40) {
        false
    } else {
        on
    }
}

// A channel's THERM latch after a reading.
pub fn latched(on: bool, limit: u8, reading: u16) -> bool
    ensures { result ≡ latched_of on limit reading }
{
    hysteresis(on, edge(limit), reading)
}

// A channel's run flag after a reading; Tmin in degrees.
pub fn running(on: bool, tmin: u8, reading: u16) -> bool
    ensures { result ≡ running_of on tmin reading }
{
    hysteresis(on, 8 * u16::from(tmin) + 1024, reading)
}

pub fn is_high(limit: u8, reading: u16) -> bool
    ensures { result ≡ is_high limit reading }
{
    edge(limit) < reading
}

pub fn is_low(limit: u8, reading: u16) -> bool
    ensures { result ≡ is_low limit reading }
{
    reading < edge(limit)
}
