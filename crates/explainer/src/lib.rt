#![tactic(auto)]
// Trace text in, why both fans have their duties after its last event and since when they turn out, as lines.
// A buffer too short for the lines stays as it was.
mod words;

ghost use Rattle.std.specs.Prelude.{◌≡◌};
ghost use Rattle.buffer.specs.Put.{put_of, held_of};
ghost use Rattle.explainer.specs.Explained.{told_lines, explained};

use event::{Explanation, Refusal};

// What is told of both fans after the last event of a text.
fn told(text: &[u8]) -> Result<(Explanation, Explanation), Refusal>
    ensures { told_lines result ≡ explained text.now }
{
    let keeper = runner::after_last(text)?;
    let one = reason::why(keeper, 1)?;
    let two = reason::why(keeper, 2)?;
    Ok((one, two))
}

// The lines of a text into a lent buffer: where they end; or 11, and the buffer as it was.
pub fn explain(text: &[u8], buf: &mut [u8]) -> Result<usize, Refusal>
    ensures value { result ≡ put_of buf.old 0 (explained text.now) }
    ensures buf_after { buf.new ≡ held_of buf.old 0 (explained text.now) }
{
    match told(text) {
        Ok((one, two)) => words::put_lines(one, two, buf),
        Err(r) => report::put_refusal(r, buf),
    }
}
