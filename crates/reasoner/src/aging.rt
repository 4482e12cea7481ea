// The stamp, and since when both fans turn, after each event of a list (T-07 of document 02): three numbers of 16 bits an event.
// It ends before the first four numbers that are no event, as the stepper does.
ghost use Rattle.std.specs.Prelude.{◌≡◌, ◌+◌, ◌≤◌, length};
ghost use Rattle.std.proofs.lemmas.List.Edits.{sets};
ghost use Rattle.reasoner.specs.Ages.{ages_in, ages_answer, ages_buffer};

use event::Refusal;
use keeper::Outcome;

// The stamp and both ages of the keeper after an outcome.
fn put_ages(o: Outcome, ages: &mut [u16], at: usize)
    requires { at + 3 ≤ length ages.old }
    ensures { ages.new ≡ sets ages.old at (ages_in o.keeper) }
{
    ages[at] = keeper::stamp(o.keeper);
    ages[at + 1] = reason::age(o.keeper, 1).unwrap_or(0);
    ages[at + 2] = reason::age(o.keeper, 2).unwrap_or(0);
}

// A keeper that never had power through a list of events: where the stamps and ages after each end in the lent buffer, three an
// event, all 0 before the first accepted power; or 11, where the numbers are no whole events or the buffer is too short for all,
// and the buffer as it was.
pub fn ages(numbers: &[i32], ages: &mut [u16]) -> Result<usize, Refusal>
    ensures value { result ≡ ages_answer numbers.now ages.old }
    ensures ages_after { ages.new ≡ ages_buffer numbers.now ages.old }
{
    stepper::put_each(numbers, 3, ages, put_ages)
}
