// The lines of a panel, in whole numbers: put together aside, and then put whole.
ghost use Rattle.std.specs.Prelude.{◌≡◌, pos, ◌++◌};
ghost use Rattle.buffer.specs.Append.{appended};
ghost use Rattle.buffer.specs.Put.{put_of, held_of};
ghost use Rattle.trace.specs.Trace.{ended, number_text};
ghost use Rattle.display.specs.Worked.{short_of, whole_of, tenths_of, worked_speed, worked_text};

use buffer::{Text, append};
use event::{FanSpeed, Panel, Refusal};
use trace_writer::append_number;

// Above -1 and below 2^64: its whole part has 64 bits.
fn is_short(x: f64) -> bool
    ensures { result ≡ short_of x }
{
    (x > -1.0) & (x < 18446744073709551616.0)
}

// A number without its fraction, from 0 to below 2^31; else 0.
fn whole(x: f64) -> i32
    ensures { result ≡ pos (whole_of x) }
{
    if is_short(x) {
        return i32::try_from(std::num::truncating_f64_to_u64(x)).unwrap_or(0);
    }
    0
}

// Tenths rounded down: no temperature is below -128 degrees, so that 128 more is not below 0.
fn tenths(x: f64) -> i32
    ensures { result ≡ tenths_of x }
{
    whole((x + 128.0) * 10.0) - 1280
}

// The line of a name and a word.
fn append_word(text: &mut Text, name: &[u8], word: &[u8])
    ensures { text.new.items ≡ appended text.old.items (ended (name.now ++ word.now)) }
{
    append(text, name);
    append(text, word);
    append(text, b"\n");
}

// The line of a temperature, in tenths, and the line of a fan's speed.
fn append_tenths(text: &mut Text, name: &[u8], x: f64)
    ensures { text.new.items ≡ appended text.old.items (number_text name.now (tenths_of x)) }
{
    append_number(text, name, tenths(x));
}

fn append_speed(text: &mut Text, name: &[u8], s: FanSpeed)
    ensures { text.new.items ≡ appended text.old.items (worked_speed name.now s) }
{
    match s {
        FanSpeed::NotMeasured => append_word(text, name, b"none"),
        FanSpeed::Stalled => append_word(text, name, b"stalled"),
        FanSpeed::Speed(x) => append_number(text, name, whole(x)),
    }
}

// The five lines into a lent buffer: where they end; or 11, and the buffer as it was.
pub fn put_panel(p: Panel, buf: &mut [u8]) -> Result<usize, Refusal>
    ensures value { result ≡ put_of buf.old 0 (worked_text p) }
    ensures buf_after { buf.new ≡ held_of buf.old 0 (worked_text p) }
{
    let mut text = Text::new();
    append_tenths(&mut text, b"local=", p.local);
    append_tenths(&mut text, b"remote1=", p.remote1);
    append_tenths(&mut text, b"remote2=", p.remote2);
    append_speed(&mut text, b"fan1=", p.fan1);
    append_speed(&mut text, b"fan2=", p.fan2);
    buffer::put_whole(text.as_slice(), buf, 0)
}
