#![tactic(auto)]
// Replays the trace on standard input, and prints the report on standard output.
// The buffer holds the report of the longest text, so that the program never falls silent.
ghost use Rattle.std.specs.Prelude.{◌≡◌, ◌≤◌, length, take, drop, IfSome, IfErr, OnOk, Some};
ghost use Rattle.std.proofs.lemmas.List.Edits.{sets};
ghost use Rattle.std.specs.Io.KnownBytes.{Appends};
ghost use Rattle.program.specs.Telling.{before_writing};
ghost use Rattle.player.specs.Report.{printed_of};

use program::Failure;
use std::io::{self, Read, Write};

// 3 bytes for each byte of the longest text, and an ending of 26.
const LONGEST: usize = 196634;

// What is to be printed of a text, in the buffer, and its length: it always fits.
fn printed(text: &[u8], report: &mut [u8]) -> usize
    requires { LONGEST ≤ length report.old }
    ensures value { result ≡ length (printed_of text.now) }
    ensures report_after { report.new ≡ sets report.old 0 (printed_of text.now) }
{
    match player::replay(text, report) {
        Ok(end) => end,
        Err(r) => report::put_refusal(r, report).unwrap_or(0),
    }
}

// What is told of all that is read, up to one byte more than a text may have, is written, and nothing else.
// Stays: `why` and `panel` have the same lines, since each program states what it writes by a rule of its own.
fn told<R: Read, W: Write>(reader: &mut R, writer: &mut W) -> Result<(), Failure>
    ensures read { OnOk result (IfSome (R.remaining reader.old) (λ input. R.remaining reader.new ≡ Some (drop 65537 input))) }
    ensures written { OnOk result (IfSome (R.remaining reader.old) (λ input.
        Appends (W.contents writer.old) (W.contents writer.new) (printed_of (take 65537 input)))) }
    ensures unwritten { IfErr result (λ failure. before_writing failure → writer.new ≡ writer.old) }
{
    let mut lines = [0; LONGEST];
    program::answered_into(reader, writer, &mut lines, printed)
}

fn main(rt: HostRuntime) -> io::Result<()> {
    let end = told(&mut rt.stdin(), &mut rt.stdout());
    program::ended(&rt, "replay", "the report", end)
}
