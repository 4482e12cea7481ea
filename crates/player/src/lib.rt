#![tactic(auto)]
// The replay: trace text in, report out, by stepping a keeper that never had power.
// A buffer too short for the report stays as it was.
mod entries;

ghost use Rattle.std.specs.Prelude.{◌≡◌, ◌≤◌, length};
ghost use Rattle.std.proofs.lemmas.List.Edits.{sets};
ghost use Rattle.player.specs.Report.{replay_answer, replay_buffer};
ghost use Rattle.player.specs.Left.{report_left};
ghost use Rattle.player.specs.Played.{played_of};

use entries::Entries;
use event::Refusal;
use keeper::Keeper;
use trace_reader::TraceReader;

// All of a text, and a keeper that never had power.
fn entries_of<'a>(text: &'a [u8]) -> Entries<'a>
    requires { length text.now ≤ 65536 }
    ensures { report_left result ≡ played_of text.now }
{
    Entries {
        reader: TraceReader::new(text),
        keeper: Keeper::off(),
        line: 1,
    }
}

// How long a report is.
fn report_len(entries: Entries) -> usize
    ensures { result ≡ length (report_left entries.entry) }
{
    let mut n: usize = 0;
    for entry in entries {
        n += entry.len();
    }
    n
}

// A report, where it fits, and its length.
fn write_report(entries: Entries, report: &mut [u8]) -> usize
    requires { length (report_left entries) ≤ length report.old }
    ensures value { result ≡ length (report_left entries.entry) }
    ensures report_after { report.new ≡ sets report.old 0 (report_left entries.entry) }
{
    let mut out: usize = 0;
    for entry in entries {
        out = entry.put(report, out).unwrap_or(out);
    }
    out
}

// The report of a trace into a lent buffer: where it ends; or 11, and the buffer as it was.
// Only where the buffer might be too short is the report measured before it is written.
pub fn replay(text: &[u8], report: &mut [u8]) -> Result<usize, Refusal>
    ensures value { result ≡ replay_answer text.now report.old }
    ensures report_after { report.new ≡ replay_buffer text.now report.old }
{
    if 65536 < text.len() {
        return Err(Refusal::WrongSize);
    }
    let entries = entries_of(text);
    if 3 * text.len() + 26 <= report.len() {
        return Ok(write_report(entries, report));
    }
    if report.len() < report_len(entries) {
        return Err(Refusal::WrongSize);
    }
    Ok(write_report(entries, report))
}
