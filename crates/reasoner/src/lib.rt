#![tactic(auto)]
// Why both fans have their duties after each event of a list, each of them four numbers: eight bytes an event; and since when they turn.
// It ends before the first four numbers that are no event, as the stepper does.
mod aging;

ghost use Rattle.std.specs.Prelude.{◌≡◌, ◌+◌, ◌≤◌, length, pos};
ghost use Rattle.std.proofs.lemmas.List.Edits.{sets};
ghost use Rattle.rules.specs.Events.{channel_number};
ghost use Rattle.reason.specs.Aging.{explanation_of};
ghost use Rattle.rules.specs.Stamps.{reason_told};
ghost use Rattle.reasoner.specs.Reasons.{why_bytes, both_bytes, reasons_answer, reasons_buffer};

pub use aging::ages;
use event::{Explanation, Reason, Refusal};
use keeper::Outcome;
use part::ChannelId;

// A channel's number as a byte.
fn channel_byte(c: ChannelId) -> u8
    ensures { result ≡ channel_number c }
{
    input::channel_number(c) as u8
}

// A reason's number and its values, 0 where it has no more.
// Stays: C has no Reason, `snezhulka_reasons` gives it these numbers.
fn reason_bytes(r: Reason) -> [u8; 4]
    ensures { result ≡ why_bytes (Ok r) }
{
    match r {
        Reason::Disabled => [1, 0, 0, 0],
        Reason::PinLow => [2, 0, 0, 0],
        Reason::Therm(c) => [3, channel_byte(c), 0, 0],
        Reason::NoTarget => [4, 0, 0, 0],
        Reason::SpinUp(left) => [5, left, 0, 0],
        Reason::Ramp(ramp) => [6, ramp.left, integer::flag(ramp.up), ramp.target],
        Reason::Manual => [7, 0, 0, 0],
        Reason::Demand(c) => [8, channel_byte(c), 0, 0],
    }
}

fn why_bytes(told: Result<Explanation, Refusal>) -> [u8; 4]
    ensures { result ≡ why_bytes (reason_told told) }
{
    match told {
        Ok(explanation) => reason_bytes(explanation.reason),
        Err(r) => [0, r.number(), 0, 0],
    }
}

// Why both fans have their duties after an outcome, four bytes each.
fn put_reasons(o: Outcome, reasons: &mut [u8], at: usize)
    requires { at + 8 ≤ length reasons.old }
    ensures { reasons.new
        ≡ sets reasons.old at (both_bytes (reason_told (explanation_of o.keeper (pos 1))) (reason_told (explanation_of o.keeper (pos 2)))) }
{
    buffer::put_bytes(&why_bytes(reason::why(o.keeper, 1)), reasons, at);
    buffer::put_bytes(&why_bytes(reason::why(o.keeper, 2)), reasons, at + 4);
}

// A keeper that never had power through a list of events: where the reasons after each end in the lent buffer; or 11, where
// the numbers are no whole events or the buffer is too short for all, and the buffer as it was.
pub fn reasons(numbers: &[i32], reasons: &mut [u8]) -> Result<usize, Refusal>
    ensures value { result ≡ reasons_answer numbers.now reasons.old }
    ensures reasons_after { reasons.new ≡ reasons_buffer numbers.now reasons.old }
{
    stepper::put_each(numbers, 8, reasons, put_reasons)
}
