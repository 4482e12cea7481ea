#![tactic(auto)]
// The writer of trace text: the four lines of an event into a lent buffer.
// What it writes, `trace` reads back as the same event.
ghost use Rattle.std.specs.Prelude.{◌≡◌, ◌+◌, ◌≤◌, length};
ghost use Rattle.buffer.specs.Append.{appended};
ghost use Rattle.buffer.specs.Put.{put_of, held_of};
ghost use Rattle.trace.specs.Words.{kind_text};
ghost use Rattle.trace.specs.Trace.{ended, number_text, numbers_text, event_text};

use buffer::Text;
use event::{Event, Kind, Numbers, Refusal};

// The line of a kind.
fn append_kind(text: &mut Text, k: Kind)
    ensures text_after { text.new.items ≡ appended text.old.items (ended (kind_text k)) }
    ensures short { length (ended (kind_text k)) ≤ 12 }
{
    buffer::append(text, trace::kind_text(k));
    buffer::append(text, b"\n");
}

// The line of a name and a number.
pub fn append_number(text: &mut Text, name: &[u8], v: i32)
    ensures text_after { text.new.items ≡ appended text.old.items (number_text name.now v) }
    ensures short { length (number_text name.now v) ≤ length name.now + 12 }
{
    buffer::append(text, name);
    buffer::append_signed(text, v);
    buffer::append(text, b"\n");
}

// The lines of an event's numbers.
fn append_numbers(text: &mut Text, n: Numbers)
    ensures text_after { text.new.items ≡ appended text.old.items (numbers_text n) }
    ensures short { length (numbers_text n) ≤ 48 }
{
    append_number(text, b"who=", n.who);
    append_number(text, b"arg=", n.arg);
    append_number(text, b"val=", n.val);
}

// The four lines of an event.
pub fn put_event(e: Event, buf: &mut [u8], at: usize) -> Result<usize, Refusal>
    ensures value { result ≡ put_of buf.old at (event_text e) }
    ensures buf_after { buf.new ≡ held_of buf.old at (event_text e) }
{
    let mut text = Text::new();
    append_kind(&mut text, event::kind_of(e));
    append_numbers(&mut text, event::numbers_of(e));
    buffer::put_whole(text.as_slice(), buf, at)
}
