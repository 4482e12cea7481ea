#![tactic(auto)]
// The vocabulary of the chip's border: the events that it takes, the answers that it gives, the outputs that it shows, the reasons for them, the panel.
// Nothing here acts; every crate above speaks in these terms.
ghost use Rattle.std.specs.Prelude.{◌≡◌};
ghost use Rattle.event.specs.Kinds.{kind_of, numbers_of, event_of, place_of, kind_at};
ghost use Rattle.event.specs.Answers.{refusal_number, number_of, data_of};

use part::ChannelId;

// The three numbers of an event.
#[derive(Clone, Copy)]
pub struct Numbers {
    pub who: i32,
    pub arg: i32,
    pub val: i32,
}

// A transfer on the bus.
#[derive(Clone, Copy)]
pub enum Transfer {
    Write(Numbers),
    Point(Numbers),
    Read(Numbers),
}

#[derive(Clone, Copy)]
pub enum Event {
    Power(Numbers),
    Bus(Transfer),
    Sample(Numbers),
    Tach(Numbers),
    Pin(Numbers),
    Clock(Numbers),
    Period(Numbers),
    Alert(Numbers),
    Diode(Numbers),
}

// The kinds of document 01's table, in its order, and those of document 02 behind them.
#[derive(Clone, Copy, Debug, PartialEq, Eq)]
pub enum Kind {
    Power,
    Write,
    Point,
    Read,
    Sample,
    Tach,
    Pin,
    Clock,
    Period,
    Alert,
    Diode,
}

pub fn kind_of(e: Event) -> Kind
    ensures { result ≡ kind_of e }
{
    match e {
        Event::Power(_) => Kind::Power,
        Event::Bus(Transfer::Write(_)) => Kind::Write,
        Event::Bus(Transfer::Point(_)) => Kind::Point,
        Event::Bus(Transfer::Read(_)) => Kind::Read,
        Event::Sample(_) => Kind::Sample,
        Event::Tach(_) => Kind::Tach,
        Event::Pin(_) => Kind::Pin,
        Event::Clock(_) => Kind::Clock,
        Event::Period(_) => Kind::Period,
        Event::Alert(_) => Kind::Alert,
        Event::Diode(_) => Kind::Diode,
    }
}

pub fn numbers_of(e: Event) -> Numbers
    ensures { result ≡ numbers_of e }
{
    match e {
        Event::Bus(Transfer::Write(n) | Transfer::Point(n) | Transfer::Read(n))
        | Event::Power(n)
        | Event::Sample(n)
        | Event::Tach(n)
        | Event::Pin(n)
        | Event::Clock(n)
        | Event::Period(n)
        | Event::Alert(n)
        | Event::Diode(n) => n,
    }
}

// An event of a kind, with these numbers.
pub fn event_of(k: Kind, n: Numbers) -> Event
    ensures { result ≡ event_of k n }
{
    match k {
        Kind::Power => Event::Power(n),
        Kind::Write => Event::Bus(Transfer::Write(n)),
        Kind::Point => Event::Bus(Transfer::Point(n)),
        Kind::Read => Event::Bus(Transfer::Read(n)),
        Kind::Sample => Event::Sample(n),
        Kind::Tach => Event::Tach(n),
        Kind::Pin => Event::Pin(n),
        Kind::Clock => Event::Clock(n),
        Kind::Period => Event::Period(n),
        Kind::Alert => Event::Alert(n),
        Kind::Diode => Event::Diode(n),
    }
}

// A kind's place in the table.
// Stays: a kind by number, here and in `kind_at`: C hands kinds over so.
pub fn place_of(k: Kind) -> u8
    ensures { result ≡ place_of k }
{
    k as u8
}

pub const KINDS: [Kind; 11] = [
    Kind::Power,
    Kind::Write,
    Kind::Point,
    Kind::Read,
    Kind::Sample,
    Kind::Tach,
    Kind::Pin,
    Kind::Clock,
    Kind::Period,
    Kind::Alert,
    Kind::Diode,
];

pub const KIND_COUNT: u16 = KINDS.len() as u16;

// The kind at a place of the table; the first one past its end.
pub fn kind_at(place: u16) -> Kind
    ensures { result ≡ kind_at place }
{
    KINDS
        .get(usize::from(place))
        .copied()
        .unwrap_or(Kind::Power)
}

// Why an event, an image, a text or a row of alert entries is refused, each with its reply number.
#[derive(Clone, Copy, Debug, PartialEq, Eq)]
pub enum Refusal {
    NoPower = 1,
    OtherAddress = 2,
    NoSuchPart = 3,
    NoSuchRegister = 4,
    ReadOnly = 5,
    OutOfRange = 6,
    BadRangeCode = 7,
    OddLocal = 8,
    NotMonitoring = 9,
    Malformed = 10,
    WrongSize = 11,
    NoAlert = 12,
    BrokenDiode = 13,
}

impl Refusal {
    // The reply number.
    pub fn number(self) -> u8
        ensures { result ≡ refusal_number self }
    {
        self as u8
    }
}

// What any of them is answered, `Result<u8, Refusal>`: done, with data that only a read and a row hand out, or a refusal.
// Its reply number: 0 where it is done.
pub fn number_of<T: Copy>(answer: Result<T, Refusal>) -> u8
    ensures { result ≡ number_of answer }
{
    answer.err().map_or(0, Refusal::number)
}

// Its data: 0 where it is refused.
pub fn data_of(answer: Result<u8, Refusal>) -> u8
    ensures { result ≡ data_of answer }
{
    answer.unwrap_or(0)
}

// The outputs: 1 while asserted, else 0; the duties in slots of 240.
// Stays: pins as numbers, and two duties by name, as the rule `shown` and the theorem Alerts state them.
#[derive(Clone, Copy)]
pub struct Shown {
    pub int: u8,
    pub therm: u8,
    pub fault: u8,
    pub duty1: u8,
    pub duty2: u8,
}

// A keeper on the alert line (T-02 of document 02): its address, and whether it asserts the line.
#[repr(C)]
#[derive(Clone, Copy)]
pub struct AlertEntry {
    pub address: u8,
    pub asserting: bool,
}

// A fan on its way to its target: the slots that are left, whether upward, and the target.
#[derive(Clone, Copy)]
pub struct Ramp {
    pub left: u8,
    pub up: bool,
    pub target: u8,
}

// Why a fan has its duty (T-03 of document 02), in the order in which they are asked: the channel is the lowest whose latch is
// on; the number of a spin-up is the clock events left; the channel of a demand is the lowest that asks the most.
#[derive(Clone, Copy)]
pub enum Reason {
    Disabled,
    PinLow,
    Therm(ChannelId),
    NoTarget,
    SpinUp(u8),
    Ramp(Ramp),
    Manual,
    Demand(ChannelId),
}

// Why a fan has its duty, and since when it turns (T-07 of document 02): the clock events since it started, modulo 65,536.
#[derive(Clone, Copy)]
pub struct Explanation {
    pub reason: Reason,
    pub age: u16,
}

// The speed of a fan on a panel (T-06 of document 02), by its count: 0, 255, or any other, which gives revolutions a minute.
#[derive(Clone, Copy)]
pub enum FanSpeed {
    NotMeasured,
    Stalled,
    Speed(f64),
}

// The temperatures in degrees, and the speeds of both fans.
// Stays: five fields, by whose names the rule `figures` and the theorem PagePanel state each.
#[derive(Clone, Copy)]
pub struct Panel {
    pub local: f64,
    pub remote1: f64,
    pub remote2: f64,
    pub fan1: FanSpeed,
    pub fan2: FanSpeed,
}
