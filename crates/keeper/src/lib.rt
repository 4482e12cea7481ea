#![tactic(auto)]
// The fan keeper: off until the first accepted power, then a device. Every event gets one answer; a refusal changes nothing.
// A keeper goes in by value and comes back by value.
ghost use Rattle.std.specs.Prelude.{◌≡◌, ◌≤◌, length};
ghost use Rattle.std.proofs.lemmas.List.Edits.{sets};
ghost use Rattle.keeper.specs.Keeping.{is_on, device_in, standing_with, data_for, accepted_by, decided, outcome_of, shown_by, stamp_by, powered_device};
ghost use Rattle.keeper.specs.Keeping.{image_from, image_answer, image_buffer};

use chip::Chip;
use device::Device;
use event::{Event, Kind, Refusal, Shown};
use input::Input;
use judge::Standing;

// Stays: no Option<Device>, since README names `Keeper::off` and the theorems speak of Keeper.Off.
#[derive(Clone, Copy)]
pub enum Keeper {
    Off,
    On(Device),
}

// The next keeper, the answer, and what is shown after the event.
#[derive(Clone, Copy)]
pub struct Outcome {
    pub keeper: Keeper,
    pub answer: Result<u8, Refusal>,
    pub shown: Shown,
}

impl Keeper {
    // A keeper that never had power.
    pub fn off() -> Keeper
        ensures { result ≡ Keeper.Off }
    {
        Keeper::Off
    }

    // Its device: 1 before the first power.
    pub fn device(self) -> Result<Device, Refusal>
        ensures { result ≡ powered_device self }
    {
        match self {
            Keeper::Off => Err(Refusal::NoPower),
            Keeper::On(d) => Ok(d),
        }
    }
}

// ---- what is shown

// INT, THERM, FAN_FAULT and the duties; all 0 before the first power.
#[tactic(auto, unfolding(crate::specs::Keeping::shown_by))]
pub fn shown(k: Keeper) -> Shown
    ensures { result ≡ shown_by k }
{
    match k {
        Keeper::Off => Shown {
            int: 0,
            therm: 0,
            fault: 0,
            duty1: 0,
            duty2: 0,
        },
        Keeper::On(d) => output::shown(d.chip, d.silenced),
    }
}

// The accepted clock events since power, modulo 65,536 (T-07 of document 02); 0 before the first power.
#[tactic(auto, unfolding(crate::specs::Keeping::stamp_by))]
pub fn stamp(k: Keeper) -> u16
    ensures { result ≡ stamp_by k }
{
    match k {
        Keeper::Off => 0,
        Keeper::On(d) => d.stamps.now,
    }
}

// ---- one event

// Only a read returns data.
fn data_for(c: Chip, i: Input) -> u8
    ensures { result ≡ data_for c i }
{
    if input::is_a(Kind::Read, i) {
        output::value_at(c, c.port.pointer)
    } else {
        0
    }
}

fn accept(d: Device, i: Input) -> Outcome
    ensures { result ≡ accepted_by d i }
{
    let data = data_for(d.chip, i);
    let mut next = d;
    next.accept(i);
    Outcome {
        keeper: Keeper::On(next),
        answer: Ok(data),
        shown: output::shown(next.chip, next.silenced),
    }
}

fn is_on(k: Keeper) -> bool
    ensures { result ≡ is_on k }
{
    matches!(k, Keeper::On(_))
}

fn device_in(k: Keeper) -> Device
    ensures { result ≡ device_in k }
{
    k.device().unwrap_or_default()
}

fn standing(on: bool, c: Chip) -> Standing
    ensures { result ≡ standing_with on c }
{
    Standing {
        on,
        address: c.port.address,
        monitoring: integer::bit(c.registers.config1, 0),
        error1: c.channels.remote1.error,
        error2: c.channels.remote2.error,
    }
}

fn decide(k: Keeper, d: Device, i: Input, a: Result<u8, Refusal>) -> Outcome
    ensures { result ≡ decided k d i a }
{
    match a {
        Ok(_) => accept(d, i),
        Err(refusal) => Outcome {
            keeper: k,
            answer: Err(refusal),
            shown: shown(k),
        },
    }
}

// One event: the next keeper, the answer, and what is shown.
#[tactic(auto, unfolding(crate::specs::Keeping::outcome_of))]
pub fn step(k: Keeper, e: Event) -> Outcome
    ensures { result ≡ outcome_of k e }
{
    let d = device_in(k);
    let i = input::input_of(e);
    let a = judge::reply(standing(is_on(k), d.chip), i);
    decide(k, d, i, a)
}

// ---- the register image

fn fill(c: Chip, buffer: &mut [u8])
    requires { 64 ≤ length buffer.old }
    ensures { buffer.new ≡ sets buffer.old 0 (image_from 0 64 c) }
{
    for a in 0..64u8 {
        buffer[usize::from(a)] = output::value_at(c, a);
    }
}

// The register image into the first 64 bytes of a lent buffer; with 1 or 11 the buffer stays as it was.
// Stays: `Ok(0)`, where `Ok(())` would do, since the theorem `Agreement` has it equal the rules' `image_reply`, which says `Ok 0`.
#[tactic(auto, unfolding(crate::specs::Keeping::image_answer, crate::specs::Keeping::image_buffer))]
pub fn image(k: Keeper, buffer: &mut [u8]) -> Result<u8, Refusal>
    ensures value { result ≡ image_answer k buffer.old }
    ensures buffer_after { buffer.new ≡ image_buffer k buffer.old }
{
    let d = k.device()?;
    if buffer.len() < 64 {
        return Err(Refusal::WrongSize);
    }
    fill(d.chip, buffer);
    Ok(0)
}
