// What the numbers of each kind may be.
ghost use Rattle.std.specs.Prelude.{◌≡◌};
ghost use Rattle.judge.specs.Judged.{row_of};

use super::PlainRanges;
use event::Kind;

// The largest byte: of a register's address, a value, a count.
const BYTE: u32 = 255;

// Any sample, and the mark of a number that is none.
const ANY: u16 = 2048;

// The row of a kind whose val is no sample's: who from low to high, arg and val from 0 to theirs.
fn row(low: u32, high: u32, arg: u32, val: u32) -> PlainRanges
    ensures { result ≡ record { low = low; high = high; arg = arg; val = val; sample = 2048 } }
{
    PlainRanges {
        low,
        high,
        arg,
        val,
        sample: ANY,
    }
}

// The row of a kind; what is no kind carries nothing.
#[tactic(auto, unfolding(crate::specs::Judged::row_of))]
pub fn row_of(kind: Option<Kind>) -> PlainRanges
    ensures { result ≡ row_of kind }
{
    let Some(kind) = kind else {
        return row(0, 0, 0, 0);
    };
    match kind {
        Kind::Power => row(44, 46, 1, 1),
        Kind::Write => row(0, 127, BYTE, BYTE),
        Kind::Point => row(0, 127, BYTE, 0),
        Kind::Read => row(0, 127, 0, 0),
        Kind::Sample => PlainRanges {
            sample: 2047,
            ..row(0, 2, 0, 2147483648)
        },
        Kind::Tach => row(1, 2, 0, BYTE),
        Kind::Pin => row(0, 0, 0, 1),
        Kind::Clock => row(0, 0, 0, 0),
        Kind::Period => row(1, 2, 0, 0),
        Kind::Alert => row(0, 127, 0, 0),
        Kind::Diode => row(1, 2, 0, 1),
    }
}
