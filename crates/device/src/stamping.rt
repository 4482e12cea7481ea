// Stamps of 16 bits (T-07 of document 02): the accepted clock events since power, and for each fan the stamp when it last started.
// They count modulo 65,536: a sum and a difference wrap.
ghost use Rattle.std.specs.Prelude.{◌≡◌};
ghost use Rattle.device.specs.Stamping.{stamp_after, fan_stamp_after, stamps_after, age_of};

use super::Stamps;
use chip::Chip;
use event::Kind;
use fan::Fan;
use input::Input;
use part::FanId;

// The stamp: 0 at power, one more at a clock.
fn stamp_after(i: Input, was: u16) -> u16
    ensures { result ≡ stamp_after i was }
{
    if input::is_a(Kind::Power, i) {
        return 0;
    }
    if input::is_a(Kind::Clock, i) {
        was.wrapping_add(1)
    } else {
        was
    }
}

// A fan's: the stamp after the event, where that is a power, a reset, or takes the duty from 0 to more.
fn fan_stamp_after(i: Input, now: u16, was: u16, before: Fan, after: Fan) -> u16
    ensures { result ≡ fan_stamp_after i now was before after }
{
    if input::is_restart(i) {
        return now;
    }
    if (before.drive.duty == 0) & (0 < after.drive.duty) {
        now
    } else {
        was
    }
}

#[tactic(auto, unfolding(crate::specs::Stamping::stamps_after))]
pub fn stamps_after(i: Input, s: Stamps, before: Chip, after: Chip) -> Stamps
    ensures { result ≡ stamps_after i s before after }
{
    let now = stamp_after(i, s.now);
    let starts = s.starts.map(|f, was| fan_stamp_after(
        i,
        now,
        was,
        before.fans.get(f),
        after.fans.get(f),
    ));
    Stamps { now, starts }
}

// The age of a fan: the clock events since its stamp was set.
pub fn age(f: FanId, s: Stamps) -> u16
    ensures { result ≡ age_of f s }
{
    s.now.wrapping_sub(s.starts.get(f))
}
