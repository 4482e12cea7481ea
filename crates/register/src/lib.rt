#![tactic(auto)]
// The register table of the chip: which addresses there are, with write mask and byte after power.
ghost use Rattle.std.specs.Prelude.{◌≡◌, Some};
ghost use Rattle.register.specs.Entries.{entry_of};
ghost use Rattle.rules.specs.Registers.{exists_at, mask_at, reset_at, read_only_at};

// A register: the bits that a write can change, and its byte after power.
#[derive(Clone, Copy)]
struct Listed {
    mask: u8,
    reset: u8,
}

fn row(mask: u8, reset: u8) -> Option<Listed>
    ensures { result ≡ Some (record { mask = mask; reset = reset }) }
{
    Some(Listed { mask, reset })
}

// What there is at an address.
// Inlined, so that whether there is a register is a test of one bit, and no row is put together for it: an image asks 64 times.
#[inline(always)]
#[tactic(auto, unfolding(crate::specs::Entries::entry_of, rules::specs::Registers::says, rules::specs::Registers::table))]
fn entry_at(a: u8) -> Option<Listed>
    ensures { result ≡ entry_of a }
{
    match a {
        0x00 => row(0xFF, 0x90),
        0x01 => row(0x7F, 0x7F),
        0x02 => row(0x00, 0x00),
        0x03 => row(0x00, 0x00),
        0x06 => row(0x00, 0x00),
        0x07 => row(0xFF, 0x00),
        0x08 => row(0xFF, 0x00),
        0x09 => row(0xFF, 0x00),
        0x0A => row(0x00, 0x00),
        0x0B => row(0x00, 0x00),
        0x0C => row(0x00, 0x00),
        0x0D => row(0xFF, 0x00),
        0x0E => row(0x8F, 0x00),
        0x0F => row(0x8F, 0x00),
        0x10 => row(0xFF, 0xFF),
        0x11 => row(0xFF, 0xFF),
        0x14 => row(0xFF, 0x3C),
        0x15 => row(0xFF, 0x00),
        0x16 => row(0xFF, 0x46),
        0x18 => row(0xFF, 0x50),
        0x19 => row(0xFF, 0x00),
        0x1A => row(0xFF, 0x64),
        0x1C => row(0xFF, 0x50),
        0x1D => row(0xFF, 0x00),
        0x1E => row(0xFF, 0x64),
        0x20 => row(0xFF, 0x5D),
        0x21 => row(0xFF, 0x5D),
        0x22 => row(0xFF, 0x55),
        0x23 => row(0xFF, 0x50),
        0x24 => row(0xFF, 0x41),
        0x25 => row(0xFF, 0x61),
        0x26 => row(0xFF, 0x61),
        0x3D => row(0x00, 0x31),
        0x3E => row(0x00, 0x41),
        0x3F => row(0xF0, 0x80),
        _ => None,
    }
}

#[tactic(auto, using(crate::proofs::Laws::exists_is))]
pub fn exists_at(a: u8) -> bool
    ensures { result ≡ exists_at a }
{
    entry_at(a).is_some()
}

// The bits that a write can change.
pub fn mask_at(a: u8) -> u8
    ensures { result ≡ mask_at a }
{
    entry_at(a).map_or(0, |entry| entry.mask)
}

// The byte after power.
pub fn reset_at(a: u8) -> u8
    ensures { result ≡ reset_at a }
{
    entry_at(a).map_or(0, |entry| entry.reset)
}

// Whether there is a register that no write can change.
#[tactic(auto, unfolding(rules::specs::Registers::read_only_at))]
pub fn read_only_at(a: u8) -> bool
    ensures { result ≡ read_only_at a }
{
    exists_at(a) && mask_at(a) == 0
}
