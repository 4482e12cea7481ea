#![tactic(auto)]
// The border with signed numbers, and the bits of a byte.
ghost use Rattle.std.specs.Prelude.{◌≡◌};
ghost use Rattle.integer.specs.Range.{below_of, eighths_of};
ghost use Rattle.integer.specs.Bits.{bit_of, merged_of, flag_of, packed};

// ---- a number that lies in a range, as its distance from the range's low end

// The range 0 to end - 1.
#[tactic(auto, unfolding(crate::specs::Range::below_of))]
pub fn below(v: i32, end: u16) -> Option<u16>
    ensures { result ≡ below_of v end }
{
    u16::try_from(v).ok().filter(|n| *n < end)
}

// The range -1024 to 1023: a temperature in eighths of a degree.
#[tactic(auto, unfolding(crate::specs::Range::eighths_of))]
pub fn eighths(v: i32) -> Option<u16>
    ensures { result ≡ eighths_of v }
{
    if (-1024..1024).contains(&v) {
        Some((v + 1024) as u16)
    } else {
        None
    }
}

// The bit of a byte at a place from 0 to 7; there are no others.
#[tactic(auto, using(crate::proofs::BitLaws::no_bit))]
pub fn bit(byte: u8, place: u8) -> bool
    ensures { result ≡ bit_of byte place }
{
    place < 8 && (byte >> place) & 1 == 1
}

// The bits of `new` where `mask` has a 1, else those of `old`.
#[tactic(auto, unfolding(crate::specs::Bits::merged_of))]
pub fn merged(mask: u8, old: u8, new: u8) -> u8
    ensures { result ≡ merged_of mask old new }
{
    (old & !mask) | (new & mask)
}

// 1 for on, 0 for off.
pub fn flag(on: bool) -> u8
    ensures { result ≡ flag_of on }
{
    u8::from(on)
}

// Eight bits as a byte, the first at place 0.
#[tactic(auto, using(crate::proofs::PackLaws::summed))]
pub fn pack(b0: bool, b1: bool, b2: bool, b3: bool, b4: bool, b5: bool, b6: bool, b7: bool) -> u8
    ensures { result ≡ packed b0 b1 b2 b3 b4 b5 b6 b7 }
{
    flag(b0)
        + flag(b1) * 2
        + flag(b2) * 4
        + flag(b3) * 8
        + flag(b4) * 16
        + flag(b5) * 32
        + flag(b6) * 64
        + flag(b7) * 128
}
