#![tactic(auto)]
// The engine without text: events as four numbers each, outcomes as seven bytes each.
// It ends before the first four numbers that are no event.
ghost use Rattle.std.specs.Prelude.{◌≡◌, ℕ, ◌*◌, ◌<◌, ◌≤◌, List, length};
ghost use Rattle.std.proofs.lemmas.List.Edits.{sets};
ghost use Rattle.event.specs.declared.Event.{Event};
ghost use Rattle.rules.specs.Replies.{History};
ghost use Rattle.stepper.specs.Steps.{event_from, event_numbered, event_count_from, bytes_of, bytes_answer};
ghost use Rattle.stepper.specs.Steps.{bytes_buffer, CanPut, Puts, outcome_bytes, steps_answer, steps_buffer};

use event::{Event, Numbers, Refusal};
use keeper::{Keeper, Outcome};

// Four numbers as an event; or nothing, where the first is the place of no kind.
fn event_from(kind: i32, n: Numbers) -> Option<Event>
    ensures { result ≡ event_from kind n }
{
    let place = integer::below(kind, event::KIND_COUNT)?;
    Some(event::event_of(event::kind_at(place), n))
}

// Event number i of a list of numbers; nothing, where the list has no four numbers there.
pub fn event_numbered(numbers: &[i32], i: usize) -> Option<Event>
    ensures { result ≡ event_numbered numbers.now i }
{
    let &[kind, who, arg, val] = numbers.as_chunks::<4>().0.get(i)?;
    event_from(kind, Numbers { who, arg, val })
}

// Seven bytes: answer, data, INT, THERM, FAN_FAULT and both duties.
fn put_outcome(o: Outcome, outcomes: &mut [u8], at: usize)
    ensures { outcomes.new ≡ sets outcomes.old at (outcome_bytes o.answer o.shown) }
{
    let bytes = [
        event::number_of(o.answer),
        event::data_of(o.answer),
        o.shown.int,
        o.shown.therm,
        o.shown.fault,
        o.shown.duty1,
        o.shown.duty2,
    ];
    buffer::put_bytes(&bytes, outcomes, at);
}

// So many events of a list, up to the first that is none: how many, and what `put` says of each in the buffer.
fn put_all<T, F: Fn(Outcome, &mut [T], usize)>(
    numbers: &[i32],
    width: usize,
    buffer: &mut [T],
    end: usize,
    put: F,
) -> usize
    requires room { width * end ≤ length buffer.old }
    requires callable { CanPut (F.pre put) width }
    ensures value { (result ≡ event_count_from end 0 numbers.now) × (result ≤ end) }
    ensures told { (each : Event → History → List T) → Puts (F.post put) width each →
        buffer.new ≡ sets buffer.old 0 (bytes_of each (event_count_from end 0 numbers.now) numbers.now) }
{
    let mut keeper = Keeper::off();
    for i in 0..end {
        let Some(event) = event_numbered(numbers, i) else {
            return i;
        };
        let outcome = keeper::step(keeper, event);
        keeper = outcome.keeper;
        put(outcome, buffer, width * i);
    }
    end
}

// A keeper that never had power through a list of events: where what `put` says after each, so many bytes, ends in the lent buffer;
// or 11, where the numbers are no whole events or the buffer is too short for all, and the buffer as it was.
pub fn put_each<T, F: Fn(Outcome, &mut [T], usize)>(
    numbers: &[i32],
    width: usize,
    buffer: &mut [T],
    put: F,
) -> Result<usize, Refusal>
    requires some { 0 < width }
    requires callable { CanPut (F.pre put) width }
    ensures value { result ≡ bytes_answer width numbers.now buffer.old }
    ensures told { (each : Event → History → List T) → Puts (F.post put) width each →
        buffer.new ≡ bytes_buffer width each numbers.now buffer.old }
{
    if 0 < numbers.len() % 4 {
        return Err(Refusal::WrongSize);
    }
    let end = numbers.len() / 4;
    if buffer.len() / width < end {
        return Err(Refusal::WrongSize);
    }
    Ok(width * put_all(numbers, width, buffer, end, put))
}

// The outcomes of a list of events, seven bytes each.
pub fn steps(numbers: &[i32], outcomes: &mut [u8]) -> Result<usize, Refusal>
    ensures value { result ≡ steps_answer numbers.now outcomes.old }
    ensures outcomes_after { outcomes.new ≡ steps_buffer numbers.now outcomes.old }
{
    put_each(numbers, 7, outcomes, put_outcome)
}
