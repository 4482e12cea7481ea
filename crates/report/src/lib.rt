#![tactic(auto)]
// The report into a lent buffer: the seven lines of an event, the ending of malformed text, the number of a refusal.
// A text is measured first: it is refused with 11 before a byte changes, or put line by line.
ghost use Rattle.std.specs.Prelude.{◌≡◌, ◌+◌, ◌/◌, ◌%◌, ◌≤◌, ◌<◌, length, set};
ghost use Rattle.std.proofs.lemmas.List.Edits.{sets};
ghost use Rattle.event.specs.Answers.{refusal_number};
ghost use Rattle.decimal.specs.Decimal.{decimal_of};
ghost use Rattle.buffer.specs.Put.{put_of, held_of};
ghost use Rattle.report.specs.Report.{field_text, answer_text, reply_text, pin_text, duty_text, entry_text, malformed_text};

use event::{Refusal, Shown};

// How many digits a byte has.
fn width(v: u8) -> usize
    ensures { (result ≡ length (decimal_of v)) × (result ≤ 3) }
{
    1 + usize::from(v >= 10) + usize::from(v >= 100)
}

// The length of the seven lines of an event: names and newlines are 47 bytes.
pub fn entry_len(answer: Result<u8, Refusal>, shown: Shown) -> usize
    ensures { (result ≡ length (entry_text answer shown)) × (result ≤ 68) }
{
    let reply = width(event::number_of(answer)) + width(event::data_of(answer));
    let pins = width(shown.int) + width(shown.therm) + width(shown.fault);
    let duties = width(shown.duty1) + width(shown.duty2);
    47 + reply + pins + duties
}

// The length of the ending of malformed text. The digits that have no room are counted too.
pub fn malformed_len(line: u32) -> usize
    ensures { (result ≡ length (malformed_text line)) × (result ≤ 26) }
{
    16 + buffer::put_decimal(line, &mut [], 0)
}

// The length of the line of an answer's number.
fn number_len(number: u8) -> usize
    ensures { result ≡ length (answer_text number) }
{
    8 + width(number)
}

// Stays: straight into the buffer, each with its room, a report costs 94 instructions an event; put together aside, as a trace line is, 1,304.
// A struct of the buffer and the index would say both equations of each clause again, of its two fields.

// A digit where it has room, and the index after it.
fn put_digit(v: u32, buf: &mut [u8], at: usize) -> usize
    requires { (v < 10) × (at < length buf.old) }
    ensures value { result ≡ at + 1 }
    ensures buf_after { buf.new ≡ set buf.old at (48 + v) }
{
    buf[at] = b'0' + v as u8;
    at + 1
}

// The two digits of a number below 100 likewise.
fn put_pair(v: u32, buf: &mut [u8], at: usize) -> usize
    requires { (v < 100) × (at + 1 < length buf.old) }
    ensures value { result ≡ at + 2 }
    ensures buf_after { buf.new ≡ set (set buf.old at (48 + v / 10)) (at + 1) (48 + v % 10) }
{
    buf[at] = b'0' + (v / 10) as u8;
    buf[at + 1] = b'0' + (v % 10) as u8;
    at + 2
}

// The digits of a number where they have room, and the index after them.
fn put_digits(v: u32, buf: &mut [u8], at: usize) -> usize
    requires { at + length (decimal_of v) ≤ length buf.old }
    ensures value { result ≡ at + length (decimal_of v) }
    ensures buf_after { buf.new ≡ sets buf.old at (decimal_of v) }
{
    if v < 10 {
        return put_digit(v, buf, at);
    }
    if v < 100 {
        return put_pair(v, buf, at);
    }
    if v < 1000 {
        let a = put_digit(v / 100, buf, at);
        return put_pair(v % 100, buf, a);
    }
    at + buffer::put_decimal(v, buf, at)
}

// A name where it has room. Its length is known at each call, so that the compiler needs no loop.
// Stays: byte by byte, as `buffer::put_bytes`.
fn put_name(name: &[u8], buf: &mut [u8], at: usize)
    requires { at + length name.now ≤ length buf.old }
    ensures { buf.new ≡ sets buf.old at name.now }
{
    for (skip, byte) in name.iter().enumerate() {
        buf[at + skip] = *byte;
    }
}

// A line where it has room, and the index after it.
fn put_line(name: &[u8], v: u32, buf: &mut [u8], at: usize) -> usize
    requires { at + length (field_text name.now v) ≤ length buf.old }
    ensures value { result ≡ at + length (field_text name.now v) }
    ensures buf_after { buf.new ≡ sets buf.old at (field_text name.now v) }
{
    put_name(name, buf, at);
    let e = put_digits(v, buf, at + name.len());
    buf[e] = b'\n';
    e + 1
}

// answer= and data=, then the pins, then the duties: each where it has room, and the index after it.
fn put_reply(a: Result<u8, Refusal>, buf: &mut [u8], at: usize) -> usize
    requires { at + length (reply_text a) ≤ length buf.old }
    ensures value { result ≡ at + length (reply_text a) }
    ensures buf_after { buf.new ≡ sets buf.old at (reply_text a) }
{
    let b = put_line(b"answer=", event::number_of(a) as u32, buf, at);
    put_line(b"data=", event::data_of(a) as u32, buf, b)
}

fn put_pins(s: Shown, buf: &mut [u8], at: usize) -> usize
    requires { at + length (pin_text s) ≤ length buf.old }
    ensures value { result ≡ at + length (pin_text s) }
    ensures buf_after { buf.new ≡ sets buf.old at (pin_text s) }
{
    let a = put_line(b"int=", s.int as u32, buf, at);
    let b = put_line(b"therm=", s.therm as u32, buf, a);
    put_line(b"fault=", s.fault as u32, buf, b)
}

fn put_duties(s: Shown, buf: &mut [u8], at: usize) -> usize
    requires { at + length (duty_text s) ≤ length buf.old }
    ensures value { result ≡ at + length (duty_text s) }
    ensures buf_after { buf.new ≡ sets buf.old at (duty_text s) }
{
    let a = put_line(b"duty1=", s.duty1 as u32, buf, at);
    put_line(b"duty2=", s.duty2 as u32, buf, a)
}

// The seven lines of an event where they have room, and the index after them.
fn put_lines(answer: Result<u8, Refusal>, shown: Shown, buf: &mut [u8], at: usize) -> usize
    requires { at + length (entry_text answer shown) ≤ length buf.old }
    ensures value { result ≡ at + length (entry_text answer shown) }
    ensures buf_after { buf.new ≡ sets buf.old at (entry_text answer shown) }
{
    let a = put_reply(answer, buf, at);
    let b = put_pins(shown, buf, a);
    put_duties(shown, buf, b)
}

// The ending of malformed text likewise.
fn put_ending(line: u32, buf: &mut [u8], at: usize) -> usize
    requires { at + length (malformed_text line) ≤ length buf.old }
    ensures value { result ≡ at + length (malformed_text line) }
    ensures buf_after { buf.new ≡ sets buf.old at (malformed_text line) }
{
    let number = Refusal::Malformed.number();
    let a = put_line(b"answer=", number as u32, buf, at);
    put_line(b"line=", line, buf, a)
}

// Stays: one function over these three would take a closure, whose clauses are longer than the test that each has.

// The seven lines of an event.
pub fn put_entry(
    answer: Result<u8, Refusal>,
    shown: Shown,
    buf: &mut [u8],
    at: usize,
) -> Result<usize, Refusal>
    ensures value { result ≡ put_of buf.old at (entry_text answer shown) }
    ensures buf_after { buf.new ≡ held_of buf.old at (entry_text answer shown) }
{
    if buffer::fits(at, entry_len(answer, shown), buf.len()) {
        Ok(put_lines(answer, shown, buf, at))
    } else {
        Err(Refusal::WrongSize)
    }
}

// The ending of malformed text, with the number of its first wrong line.
pub fn put_malformed(line: u32, buf: &mut [u8], at: usize) -> Result<usize, Refusal>
    ensures value { result ≡ put_of buf.old at (malformed_text line) }
    ensures buf_after { buf.new ≡ held_of buf.old at (malformed_text line) }
{
    if buffer::fits(at, malformed_len(line), buf.len()) {
        Ok(put_ending(line, buf, at))
    } else {
        Err(Refusal::WrongSize)
    }
}

// The line of an answer's number: the whole report of a text that is refused.
pub fn put_number(number: u8, buf: &mut [u8], at: usize) -> Result<usize, Refusal>
    ensures value { result ≡ put_of buf.old at (answer_text number) }
    ensures buf_after { buf.new ≡ held_of buf.old at (answer_text number) }
{
    if buffer::fits(at, number_len(number), buf.len()) {
        Ok(put_line(b"answer=", number as u32, buf, at))
    } else {
        Err(Refusal::WrongSize)
    }
}

// The line of a refusal's number, at the start of a buffer.
pub fn put_refusal(r: Refusal, buf: &mut [u8]) -> Result<usize, Refusal>
    ensures value { result ≡ put_of buf.old 0 (answer_text (refusal_number r)) }
    ensures buf_after { buf.new ≡ held_of buf.old 0 (answer_text (refusal_number r)) }
{
    put_number(r.number(), buf, 0)
}
