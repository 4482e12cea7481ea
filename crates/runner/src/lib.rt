#![tactic(auto)]
// A keeper that never had power through a whole trace text.
// Who asks something of the keeper after the last event asks it here first.
ghost use Rattle.std.specs.Prelude.{◌≡◌};
ghost use Rattle.trace.specs.Whole.{events_of};
ghost use Rattle.runner.specs.Reached.{reached_by, last_by};

use event::Refusal;
use keeper::Keeper;
use trace_reader::TraceReader;

// The keeper that the events of a text leave; or that one of its lines is wrong or missing.
pub fn run(text: &[u8]) -> Option<Keeper>
    ensures { result ≡ reached_by (events_of text.now) }
{
    let mut k = Keeper::off();
    for reading in TraceReader::new(text) {
        let Ok(event) = reading else {
            return None;
        };
        k = keeper::step(k, event).keeper;
    }
    Some(k)
}

// The keeper after the last event of a text, as a program takes one: 11 for a text of more than 65,536 bytes, before any line
// of it is judged, and then 10 for a malformed one.
pub fn after_last(text: &[u8]) -> Result<Keeper, Refusal>
    ensures { result ≡ last_by text.now }
{
    if 65536 < text.len() {
        return Err(Refusal::WrongSize);
    }
    run(text).ok_or(Refusal::Malformed)
}
