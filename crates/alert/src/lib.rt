#![tactic(auto)]
// The search at the alert response address of the SMBus specification, 0x0C: of the keepers on one alert line that assert it, the lowest
// address answers and lets go. It works on a lent row alone, one entry for each keeper.
ghost use Rattle.std.specs.Prelude.{◌≡◌};
ghost use Rattle.rules.specs.AlertRow.{row_answer, row_after};
ghost use Rattle.alert.specs.Tally.{no_entries, lower_of, counted_of, tally_of, released_of, answered_of};

use event::{AlertEntry, Refusal};

// What is known of some entries: an address outside 44 to 46, one that two have, which are there, the lowest of those that assert.
// Stays: a flag for each address; a list of them would be indexed by an address that may lie outside.
#[derive(Clone, Copy)]
struct Tally {
    outside: bool,
    twice: bool,
    has44: bool,
    has45: bool,
    has46: bool,
    lowest: Option<u8>,
}

fn no_entries() -> Tally
    ensures { result ≡ no_entries }
{
    Tally {
        outside: false,
        twice: false,
        has44: false,
        has45: false,
        has46: false,
        lowest: None,
    }
}

fn lower(e: AlertEntry, lowest: Option<u8>) -> Option<u8>
    ensures { result ≡ lower_of e lowest }
{
    if e.asserting {
        Some(e.address.min(lowest.unwrap_or(u8::MAX)))
    } else {
        lowest
    }
}

// One entry more.
fn counted(t: Tally, e: AlertEntry) -> Tally
    ensures { result ≡ counted_of t e }
{
    let is44 = e.address == 44;
    let is45 = e.address == 45;
    let is46 = e.address == 46;
    Tally {
        outside: !(44..=46).contains(&e.address) || t.outside,
        twice: (is44 && t.has44) || (is45 && t.has45) || (is46 && t.has46) || t.twice,
        has44: is44 || t.has44,
        has45: is45 || t.has45,
        has46: is46 || t.has46,
        lowest: lower(e, t.lowest),
    }
}

// The address that answers.
fn answered(t: Tally) -> Result<u8, Refusal>
    ensures { result ≡ answered_of t }
{
    if t.outside {
        return Err(Refusal::OutOfRange);
    }
    if t.twice {
        return Err(Refusal::NoAlert);
    }
    t.lowest.ok_or(Refusal::NoAlert)
}

// An entry of the row, let go where it is the one that answers.
fn released(t: Tally, e: AlertEntry) -> AlertEntry
    ensures { result ≡ released_of t e }
{
    let refused = t.outside | (t.lowest.is_none() | t.twice);
    AlertEntry {
        address: e.address,
        asserting: e.asserting & !(!refused & (e.address == t.lowest.unwrap_or(u8::MAX))),
    }
}

// Counted from the last entry on, as the rule takes them.
fn tallied(row: &[AlertEntry]) -> Tally
    ensures { result ≡ tally_of row.now }
{
    row.iter()
        .rev()
        .fold(no_entries(), |tally, entry| counted(tally, *entry))
}

pub fn respond(row: &mut [AlertEntry]) -> Result<u8, Refusal>
    ensures { (result ≡ row_answer row.old) × (row.new ≡ row_after row.old) }
{
    let tally = tallied(row);
    for entry in row.iter_mut() {
        *entry = released(tally, *entry);
    }
    answered(tally)
}
