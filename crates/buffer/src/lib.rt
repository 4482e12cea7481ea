#![tactic(auto)]
// Text into a lent buffer, from an index on: bytes and decimals; and texts that are put together aside.
// What would stand past the end is dropped; who must not lose any asks `fits` first.
ghost use Rattle.std.specs.Prelude.{◌≡◌, ◌+◌, [], ◌∷◌, leb, length, set};
ghost use Rattle.std.proofs.lemmas.List.Edits.{sets};
ghost use Rattle.buffer.specs.Put.{put_of, held_of};
ghost use Rattle.buffer.specs.Append.{appended};
ghost use Rattle.decimal.specs.Decimal.{decimal_of, text_of};

use arrayvec::ArrayVec;
use event::Refusal;

// A text that is put answers `Result<usize, Refusal>`: where it ends; or that it was refused, and the buffer is as it was.

// Whether n bytes from an index on lie within a length.
pub fn fits(at: usize, n: usize, len: usize) -> bool
    ensures { result ≡ leb (at + n) len }
{
    if len < at { false } else { n <= len - at }
}

// The byte that stands `skip` places after an index.
pub fn put_byte(b: u8, buf: &mut [u8], at: usize, skip: usize)
    ensures { buf.new ≡ set buf.old (at + skip) b }
{
    let len = buf.len();
    if at < len {
        if skip < len - at {
            buf[at + skip] = b;
        }
    }
}

// So much of a text as has room.
// Stays: byte by byte, since `copy_from_slice` makes the library for C call memcpy, which tests/embed refuses.
pub fn put_bytes(text: &[u8], buf: &mut [u8], at: usize)
    ensures { buf.new ≡ sets buf.old at text.now }
{
    for (skip, byte) in text.iter().enumerate() {
        put_byte(*byte, buf, at, skip);
    }
}

// Puts n's decimal, and answers how many digits it has.
// Stays: digits by hand, by calling itself: `write!` copies by memcpy, and each digit has its place behind those before it.
pub fn put_decimal(n: u32, buf: &mut [u8], at: usize) -> usize
    ensures value { result ≡ length (decimal_of n) }
    ensures buf_after { buf.new ≡ sets buf.old at (decimal_of n) }
{
    if n < 10 {
        put_byte(b'0' + n as u8, buf, at, 0);
        return 1;
    }
    let k = put_decimal(n / 10, buf, at);
    put_byte(b'0' + (n % 10) as u8, buf, at, k);
    k + 1
}

// Puts a minus sign and n's decimal, and answers how long they are.
fn put_negative(n: u32, buf: &mut [u8], at: usize) -> usize
    ensures value { result ≡ length (45 ∷ decimal_of n) }
    ensures buf_after { buf.new ≡ sets buf.old at (45 ∷ decimal_of n) }
{
    if buf.len() <= at {
        return 1 + put_decimal(n, buf, at);
    }
    buf[at] = b'-';
    1 + put_decimal(n, buf, at + 1)
}

// Puts the decimal of a signed number, and answers how long it is.
pub fn put_signed(v: i32, buf: &mut [u8], at: usize) -> usize
    ensures value { result ≡ length (text_of v) }
    ensures buf_after { buf.new ≡ sets buf.old at (text_of v) }
{
    let distance = v.unsigned_abs();
    if v < 0 {
        put_negative(distance, buf, at)
    } else {
        put_decimal(distance, buf, at)
    }
}

// Puts a text whole, or refuses it with 11 and leaves the buffer as it was.
pub fn put_whole(text: &[u8], buf: &mut [u8], at: usize) -> Result<usize, Refusal>
    ensures value { result ≡ put_of buf.old at text.now }
    ensures buf_after { buf.new ≡ held_of buf.old at text.now }
{
    let n = text.len();
    if fits(at, n, buf.len()) {
        put_bytes(text, buf, at);
        Ok(at + n)
    } else {
        Err(Refusal::WrongSize)
    }
}

// ---- a text that is put together aside: what has no room in it is dropped

pub type Text = ArrayVec<u8, 160>;

// A byte where it has room. A test for each keeps the compiler from making a call of memcpy of the loop below.
fn append_byte(text: &mut Text, byte: u8)
    ensures { text.new.items ≡ appended text.old.items (byte ∷ []) }
{
    if !text.is_full() {
        text.push(byte);
    }
}

// So much of some bytes as has room behind a text.
pub fn append(text: &mut Text, bytes: &[u8])
    ensures { text.new.items ≡ appended text.old.items bytes.now }
{
    if text.is_full() {
        return;
    }
    for byte in bytes {
        append_byte(text, *byte);
    }
}

// The decimal of a number, and of a signed one.
// Stays: digits aside, ten and eleven bytes, since `put_decimal` and `put_signed` put into a lent buffer.
pub fn append_decimal(text: &mut Text, n: u32)
    ensures { text.new.items ≡ appended text.old.items (decimal_of n) }
{
    let mut digits = [0u8; 10];
    let end = put_decimal(n, &mut digits, 0);
    append(text, &digits[..end]);
}

pub fn append_signed(text: &mut Text, v: i32)
    ensures { text.new.items ≡ appended text.old.items (text_of v) }
{
    let mut sign_and_digits = [0u8; 11];
    let end = put_signed(v, &mut sign_and_digits, 0);
    append(text, &sign_and_digits[..end]);
}
