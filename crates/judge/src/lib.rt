#![tactic(auto)]
// The reply to an event in plain numbers: the lowest number that applies.
// Nothing above judges a number again.
mod rows;

ghost use Rattle.std.specs.Prelude.{◌≡◌};
ghost use Rattle.judge.specs.Judged.{fits_row, no_power_in, other_address_in, no_part_in, no_register_in, read_only_in, out_of_range_in, bad_code_in};
ghost use Rattle.judge.specs.Judged.{odd_local_in, not_monitoring_in, broken_diode_in, lowest_in};

use event::{Kind, Refusal};
use input::Input;
use part::ChannelId;

// What of the past a reply asks.
// Stays: `on` beside the rest, since the theorem `Right` speaks of the reply of every standing, of one that is off with any address too.
#[derive(Clone, Copy)]
pub struct Standing {
    pub on: bool,
    pub address: u8,
    pub monitoring: bool,
    pub error1: bool,
    pub error2: bool,
}

// The ranges of a kind's numbers: who from low to high, the others from 0.
#[derive(Clone, Copy)]
pub struct PlainRanges {
    pub low: u32,
    pub high: u32,
    pub arg: u32,
    pub val: u32,
    pub sample: u16,
}

fn fits_row(r: PlainRanges, i: Input) -> bool
    ensures { result ≡ fits_row r i }
{
    (r.low..=r.high).contains(&i.who) & (i.arg <= r.arg) & (i.val <= r.val) & (i.sample <= r.sample)
}

// ---- when each number applies

fn no_power(s: Standing, i: Input) -> bool
    ensures { result ≡ no_power_in s i }
{
    !s.on & !input::is_a(Kind::Power, i)
}

fn other_address(s: Standing, i: Input) -> bool
    ensures { result ≡ other_address_in s i }
{
    matches!(
        i.kind,
        Some(Kind::Write | Kind::Point | Kind::Read | Kind::Alert)
    ) & (i.who != u32::from(s.address))
}

fn no_part(i: Input) -> bool
    ensures { result ≡ no_part_in i }
{
    match i.kind {
        Some(Kind::Sample) => i.who > 2,
        Some(Kind::Tach | Kind::Period | Kind::Diode) => !(1..=2).contains(&i.who),
        _ => false,
    }
}

fn no_register(i: Input) -> bool
    ensures { result ≡ no_register_in i }
{
    matches!(i.kind, Some(Kind::Write | Kind::Point))
        && !u8::try_from(i.arg).is_ok_and(register::exists_at)
}

fn read_only(i: Input) -> bool
    ensures { result ≡ read_only_in i }
{
    input::is_a(Kind::Write, i) && register::read_only_at((i.arg % 256) as u8)
}

fn out_of_range(i: Input) -> bool
    ensures { result ≡ out_of_range_in i }
{
    !fits_row(rows::row_of(i.kind), i)
}

fn bad_code(i: Input) -> bool
    ensures { result ≡ bad_code_in i }
{
    input::is_a(Kind::Write, i) & (0x24..=0x26).contains(&i.arg) & (5 <= input::byte_in(i) % 8)
}

fn odd_local(i: Input) -> bool
    ensures { result ≡ odd_local_in i }
{
    input::is_sample(ChannelId::Local, i) & (i.sample % 2 == 1)
}

fn not_monitoring(s: Standing, i: Input) -> bool
    ensures { result ≡ not_monitoring_in s i }
{
    matches!(i.kind, Some(Kind::Sample | Kind::Tach)) & !s.monitoring
}

// A sample of a channel whose diode is in error.
fn broken_diode(s: Standing, i: Input) -> bool
    ensures { result ≡ broken_diode_in s i }
{
    (input::is_sample(ChannelId::Remote1, i) & s.error1)
        | (input::is_sample(ChannelId::Remote2, i) & s.error2)
}

// ---- the reply

// The lowest number that applies.
// Stays: `Ok(0)`, where `Ok(())` would do, since the theorem `Right` has it equal the rules' `lowest`, which accepts by `Ok 0`.
#[tactic(auto, using(crate::proofs::Laws::given, crate::proofs::Laws::passed), unfolding(crate::specs::Judged::lowest_in))]
pub fn reply(s: Standing, i: Input) -> Result<u8, Refusal>
    ensures { result ≡ lowest_in s i }
{
    if no_power(s, i) {
        Err(Refusal::NoPower)
    } else if other_address(s, i) {
        Err(Refusal::OtherAddress)
    } else if no_part(i) {
        Err(Refusal::NoSuchPart)
    } else if no_register(i) {
        Err(Refusal::NoSuchRegister)
    } else if read_only(i) {
        Err(Refusal::ReadOnly)
    } else if out_of_range(i) {
        Err(Refusal::OutOfRange)
    } else if bad_code(i) {
        Err(Refusal::BadRangeCode)
    } else if odd_local(i) {
        Err(Refusal::OddLocal)
    } else if not_monitoring(s, i) {
        Err(Refusal::NotMonitoring)
    } else if broken_diode(s, i) {
        Err(Refusal::BrokenDiode)
    } else {
        Ok(0)
    }
}
