#![tactic(auto)]
// The reader of trace text: four lines an event, from any index of the lent text.
// It answers the event and where the next one starts, or the first wrong or missing line.
ghost use Rattle.std.specs.Prelude.{◌≡◌, [], ◌&&◌, ℕ, ◌+◌, ◌*◌, ◌≤◌, ◌<◌, leb, eqb, length, get_or, take, drop};
ghost use Rattle.event.specs.Kinds.{kinds, kind_at};
ghost use Rattle.line.specs.Line.{same_bytes, first_line};
ghost use Rattle.trace.specs.Words.{word_of, kind_text, kind_named, kind_line};
ghost use Rattle.trace.specs.Trace.{number_line, event_at};

use event::{Event, Kind, Numbers};
use line::{line_end, same};

// Which of an event's four lines is wrong, from 0, and where it starts.
#[derive(Clone, Copy, Debug, PartialEq, Eq)]
pub struct Misread {
    pub line: u8,
    pub start: usize,
}

// Whether these bytes stand in the text at an index. No bytes stand everywhere.
fn stands(bytes: &[u8], text: &[u8], at: usize) -> bool
    ensures { result ≡ same_bytes (take (length bytes.now) (drop at text.now)) bytes.now }
{
    text[at.min(text.len())..].starts_with(bytes)
}

// kind= and the word of a kind.
pub fn kind_text(kind: Kind) -> &'static [u8]
    ensures { result.now ≡ kind_text kind }
{
    match kind {
        Kind::Power => b"kind=power",
        Kind::Write => b"kind=write",
        Kind::Point => b"kind=point",
        Kind::Read => b"kind=read",
        Kind::Sample => b"kind=sample",
        Kind::Tach => b"kind=tach",
        Kind::Pin => b"kind=pin",
        Kind::Clock => b"kind=clock",
        Kind::Period => b"kind=period",
        Kind::Alert => b"kind=alert",
        Kind::Diode => b"kind=diode",
    }
}

// The word alone.
#[tactic(auto, using(crate::proofs::Words::kind_long))]
fn word_of(kind: Kind) -> &'static [u8]
    ensures { result.now ≡ word_of kind }
{
    &kind_text(kind)[5..]
}

// The kind that a line without its newline names.
fn kind_named(line: &[u8]) -> Option<Kind>
    ensures { result ≡ kind_named line.now }
{
    let word = line.strip_prefix(b"kind=")?;
    event::KINDS
        .iter()
        .copied()
        .find(|kind| same(word, word_of(*kind)))
}

// The line at `at` as a kind, ended by a newline. The longest has 12 bytes with it, and no more are looked at, however long a line is.
fn kind_line(text: &[u8], at: usize) -> Option<(Kind, usize)>
    ensures { result ≡ kind_line text.now at }
{
    let rest = &text[at.min(text.len())..];
    let near = &rest[..rest.len().min(12)];
    let e = line_end(near, 0);
    if near.len() <= e {
        return None;
    }
    let kind = kind_named(&near[..e])?;
    Some((kind, at + e + 1))
}

// The line at `at` as a decimal, ended by a newline. Most have one digit.
fn decimal_line(text: &[u8], at: usize) -> Option<(i32, usize)>
    ensures { result ≡ number_line [] text.now at }
{
    if let [digit @ b'0'..=b'9', b'\n', ..] = &text[at.min(text.len())..] {
        return Some((i32::from(*digit - b'0'), at + 2));
    }
    let e = line_end(text, at);
    if text.len() <= e {
        return None;
    }
    let v = decimal::read_decimal(&text[at..e])?;
    Some((v, e + 1))
}

// The line at `at` as a name, which has no newline, and a decimal, ended by a newline.
fn number_line(name: &[u8; 4], text: &[u8], at: usize) -> Option<(i32, usize)>
    requires { first_line name.now ≡ name.now }
    ensures { result ≡ number_line name.now text.now at }
{
    if stands(name, text, at) {
        decimal_line(text, at + 4)
    } else {
        None
    }
}

// The event whose four lines start at `at`; or the first of them that is wrong.
pub fn event_at(text: &[u8], at: usize) -> Result<(Event, usize), Misread>
    ensures { result ≡ event_at text.now at }
{
    let Some((kind, at1)) = kind_line(text, at) else {
        return Err(Misread { line: 0, start: at });
    };
    let Some((who, at2)) = number_line(b"who=", text, at1) else {
        return Err(Misread {
            line: 1,
            start: at1,
        });
    };
    let Some((arg, at3)) = number_line(b"arg=", text, at2) else {
        return Err(Misread {
            line: 2,
            start: at2,
        });
    };
    let Some((val, next)) = number_line(b"val=", text, at3) else {
        return Err(Misread {
            line: 3,
            start: at3,
        });
    };
    Ok((event::event_of(kind, Numbers { who, arg, val }), next))
}
