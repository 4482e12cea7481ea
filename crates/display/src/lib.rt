#![tactic(auto)]
// Trace text in, the panel after its last event out, as lines.
// A buffer too short for the lines stays as it was.
mod lines;

ghost use Rattle.std.specs.Prelude.{◌≡◌};
ghost use Rattle.buffer.specs.Put.{put_of, held_of};
ghost use Rattle.display.specs.Displayed.{displayed};
ghost use Rattle.display.specs.Worked.{worked_told};

use event::{Panel, Refusal};

// The panel after the last event of a text.
fn told(text: &[u8]) -> Result<Panel, Refusal>
    ensures { worked_told result ≡ displayed text.now }
{
    let keeper = runner::after_last(text)?;
    gauge::panel(keeper)
}

// The lines of a text into a lent buffer: where they end; or 11, and the buffer as it was.
pub fn display(text: &[u8], buf: &mut [u8]) -> Result<usize, Refusal>
    ensures value { result ≡ put_of buf.old 0 (displayed text.now) }
    ensures buf_after { buf.new ≡ held_of buf.old 0 (displayed text.now) }
{
    match told(text) {
        Ok(panel) => lines::put_panel(panel, buf),
        Err(r) => report::put_refusal(r, buf),
    }
}
