#![tactic(auto)]
// What stands after a list of events, each of them four numbers: the register image, and the panel.
// The image is what a read of each of the 64 addresses would return, without a read's side effects.
mod figures;

ghost use Rattle.std.specs.Prelude.{◌≡◌};
ghost use Rattle.imager.specs.Image.{kept_by, after_by, image_after, image_left};
ghost use Rattle.imager.specs.Figures.{panel_after, figures_left, cases_left};

use event::Refusal;
use keeper::Keeper;

// The keeper that a list of events leaves; or nothing, where one of them is none.
// Stays: one driver for this, stepper::put_all and runner::run would share only the step: put_all counts and puts, run stops at a wrong line.
fn run_all(numbers: &[i32], end: usize) -> Option<Keeper>
    ensures { result ≡ kept_by end numbers.now }
{
    let mut k = Keeper::off();
    for i in 0..end {
        let event = stepper::event_numbered(numbers, i)?;
        k = keeper::step(k, event).keeper;
    }
    Some(k)
}

// The keeper after all events of a list: or 11 where the numbers are no whole events, 10 where they name a kind that is none.
fn after_all(numbers: &[i32]) -> Result<Keeper, Refusal>
    ensures { result ≡ after_by numbers.now }
{
    if 0 < numbers.len() % 4 {
        return Err(Refusal::WrongSize);
    }
    run_all(numbers, numbers.len() / 4).ok_or(Refusal::Malformed)
}

// A keeper that never had power through a list of events, and then its register image into the lent buffer: 0, 1 before
// power, 10 where the numbers name a kind that is none, 11 where they are no whole events or the buffer is too short.
// But for 0 the buffer stays as it was.
pub fn image(numbers: &[i32], buffer: &mut [u8]) -> Result<u8, Refusal>
    ensures value { result ≡ image_after numbers.now buffer.old }
    ensures buffer_after { buffer.new ≡ image_left numbers.now buffer.old }
{
    let keeper = after_all(numbers)?;
    keeper::image(keeper, buffer)
}

// A keeper that never had power through a list of events, and then its panel into the lent buffers: 0; 11 where the numbers
// are no whole events or a buffer is too short, 10 where they name a kind that is none, 1 before power. But for 0 the
// buffers stay as they were.
pub fn panel(numbers: &[i32], figures: &mut [f64], cases: &mut [u8]) -> Result<u8, Refusal>
    ensures value { result ≡ panel_after numbers.now figures.old cases.old }
    ensures figures_after { figures.new ≡ figures_left numbers.now figures.old cases.old }
    ensures cases_after { cases.new ≡ cases_left numbers.now figures.old cases.old }
{
    let Some(figures) = figures.first_chunk_mut::<5>() else {
        return Err(Refusal::WrongSize);
    };
    let Some(cases) = cases.first_chunk_mut::<2>() else {
        return Err(Refusal::WrongSize);
    };
    let panel = gauge::panel(after_all(numbers)?)?;
    *figures = figures::panel_figures(panel);
    *cases = figures::panel_cases(panel);
    Ok(0)
}
