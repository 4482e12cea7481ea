// The lines of both reasons, in words, and of both ages: put together aside, and then put whole.
ghost use Rattle.std.specs.Prelude.{◌≡◌, ◌++◌, ◌+◌, ◌≤◌, length};
ghost use Rattle.decimal.specs.Decimal.{decimal_of};
ghost use Rattle.buffer.specs.Append.{appended};
ghost use Rattle.buffer.specs.Put.{put_of, held_of};
ghost use Rattle.explainer.specs.Words.{ramp_words, reason_words, reason_line, age_line, fan_lines};

use buffer::{Text, append};
use event::{Explanation, Ramp, Reason, Refusal};
use part::FanId;

// A word and a number.
fn append_numbered(text: &mut Text, word: &[u8], n: u32)
    ensures text_after { text.new.items ≡ appended text.old.items (word.now ++ decimal_of n) }
    ensures short { length (word.now ++ decimal_of n) ≤ length word.now + 10 }
{
    append(text, word);
    buffer::append_decimal(text, n);
}

// The slots left, the direction, the target.
fn append_ramp(text: &mut Text, r: Ramp)
    ensures text_after { text.new.items ≡ appended text.old.items (ramp_words r) }
    ensures short { length (ramp_words r) ≤ 31 }
{
    append_numbered(text, b"ramp ", r.left as u32);
    if r.up {
        append_numbered(text, b" up ", r.target as u32);
    } else {
        append_numbered(text, b" down ", r.target as u32);
    }
}

// The words of a reason.
fn append_reason(text: &mut Text, r: Reason)
    ensures text_after { text.new.items ≡ appended text.old.items (reason_words r) }
    ensures short { length (reason_words r) ≤ 31 }
{
    match r {
        Reason::Disabled => append(text, b"disabled"),
        Reason::PinLow => append(text, b"pin"),
        Reason::Therm(c) => append_numbered(text, b"therm ", input::channel_number(c)),
        Reason::NoTarget => append(text, b"zero"),
        Reason::SpinUp(n) => append_numbered(text, b"spin ", n as u32),
        Reason::Ramp(ramp) => append_ramp(text, ramp),
        Reason::Manual => append(text, b"manual"),
        Reason::Demand(c) => append_numbered(text, b"demand ", input::channel_number(c)),
    }
}

// The line of a fan, and the line of its age.
fn append_line(text: &mut Text, f: FanId, r: Reason)
    ensures text_after { text.new.items ≡ appended text.old.items (reason_line f r) }
    ensures short { length (reason_line f r) ≤ 49 }
{
    append_numbered(text, b"reason", input::fan_number(f));
    append(text, b"=");
    append_reason(text, r);
    append(text, b"\n");
}

fn append_age(text: &mut Text, f: FanId, clocks: u16)
    ensures text_after { text.new.items ≡ appended text.old.items (age_line f clocks) }
    ensures short { length (age_line f clocks) ≤ 25 }
{
    append_numbered(text, b"age", input::fan_number(f));
    append_numbered(text, b"=", clocks as u32);
    append(text, b"\n");
}

// The lines of both fans into a lent buffer: where they end; or 11, and the buffer as it was.
pub fn put_lines(one: Explanation, two: Explanation, buf: &mut [u8]) -> Result<usize, Refusal>
    ensures value { result ≡ put_of buf.old 0 (fan_lines one.reason two.reason one.age two.age) }
    ensures buf_after { buf.new ≡ held_of buf.old 0 (fan_lines one.reason two.reason one.age two.age) }
{
    let mut text = Text::new();
    append_line(&mut text, FanId::One, one.reason);
    append_line(&mut text, FanId::Two, two.reason);
    append_age(&mut text, FanId::One, one.age);
    append_age(&mut text, FanId::Two, two.age);
    buffer::put_whole(text.as_slice(), buf, 0)
}
