#![tactic(auto)]
// Canonical decimals: no plus sign, no leading zero, no -0, within a signed 32-bit number.
// This crate reads them; `buffer` writes them.
ghost use Rattle.std.specs.Prelude.{◌≡◌, Some};
ghost use Rattle.decimal.specs.Decimal.{digits_from, capped, unsigned_of, negative, parse_of};

// The value of a run of digits, up to 2147483648.
fn digits(s: &[u8]) -> Option<u64>
    ensures { result ≡ capped (digits_from 0 s.now) }
{
    let mut v: u64 = 0;
    for &b in s {
        if !b.is_ascii_digit() {
            return None;
        }
        v = v * 10 + u64::from(b - b'0');
        if 2147483648 < v {
            return None;
        }
    }
    Some(v)
}

// The value of an unsigned decimal without a leading zero, up to 2147483648.
fn magnitude_of(s: &[u8]) -> Option<u64>
    ensures { result ≡ capped (unsigned_of s.now) }
{
    match s {
        [] => None,
        [b'0'] => Some(0),
        [b'0', ..] => None,
        _ => digits(s),
    }
}

// The number so far below 0, where it fits; there is no -0.
fn negated(v: u64) -> Option<i32>
    ensures { result ≡ negative (Some v) }
{
    match v {
        0 => None,
        _ => i32::try_from(v - 1).ok().map(|n| -1 - n),
    }
}

// The number that s is the canonical decimal of.
pub fn read_decimal(s: &[u8]) -> Option<i32>
    ensures { result ≡ parse_of s.now }
{
    if let [b'-', distance @ ..] = s {
        return negated(magnitude_of(distance)?);
    }
    i32::try_from(magnitude_of(s)?).ok()
}
