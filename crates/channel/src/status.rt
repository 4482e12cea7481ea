// The status bits of a channel: what sets and clears its high, low and THERM bits.
ghost use Rattle.std.specs.Prelude.{◌≡◌};
ghost use Rattle.rules.specs.Temperatures.{limit_bits_in, therm_bit_in};
ghost use Rattle.channel.specs.Channels.{clears_bit, status_bit_after};

use part::{ChannelId, FanId};
use stored::Context;

// The status register, by its fan, of a channel's high and low bits, and of its THERM bit.
// Stays: each of the two is told apart by its match, and a table by channel would be no shorter.
pub fn limit_bits_in(c: ChannelId) -> FanId
    ensures { result ≡ limit_bits_in c }
{
    match c {
        ChannelId::Local | ChannelId::Remote1 => FanId::One,
        ChannelId::Remote2 => FanId::Two,
    }
}

pub fn therm_bit_in(c: ChannelId) -> FanId
    ensures { result ≡ therm_bit_in c }
{
    match c {
        ChannelId::Remote1 => FanId::One,
        ChannelId::Local | ChannelId::Remote2 => FanId::Two,
    }
}

// A start afresh, a read of its register and a cleared enable bit clear a bit.
#[tactic(auto, unfolding(crate::specs::Channels::clears_bit))]
pub fn clears_bit(c: ChannelId, f: FanId, m: Context) -> bool
    ensures { result ≡ clears_bit c f m }
{
    input::is_restart(m.input)
        | input::is_read(stored::status_at(f), m.pointer, m.input)
        | !super::is_on(c, m)
}

// A bit in the register of a fan: set at a sample of the enabled channel where its condition is met.
#[tactic(auto, unfolding(crate::specs::Channels::status_bit_after))]
pub fn bit_after(c: ChannelId, f: FanId, m: Context, met: bool, was: bool) -> bool
    ensures { result ≡ status_bit_after c f m met was }
{
    let sets = input::is_sample(c, m.input) & super::is_on(c, m) & met;
    input::bit_after(sets, clears_bit(c, f, m), was)
}
