#![tactic(auto)]
// Prints why both fans have their duties after the last event of the trace on standard input, and since when they turn.
// The buffer holds the longest lines, so that the program never falls silent.
ghost use Rattle.std.specs.Prelude.{◌≡◌, ◌≤◌, length, take, drop, IfSome, IfErr, OnOk, Some};
ghost use Rattle.std.proofs.lemmas.List.Edits.{sets};
ghost use Rattle.std.specs.Io.KnownBytes.{Appends};
ghost use Rattle.program.specs.Telling.{before_writing};
ghost use Rattle.explainer.specs.Explained.{explained};

use program::Failure;
use std::io::{self, Read, Write};

// Two lines of at most 26 bytes, two of at most 11.
const LONGEST: usize = 74;

// What is to be printed of a text, in the buffer, and its length: it always fits.
fn printed(text: &[u8], lines: &mut [u8]) -> usize
    requires { LONGEST ≤ length lines.old }
    ensures value { result ≡ length (explained text.now) }
    ensures lines_after { lines.new ≡ sets lines.old 0 (explained text.now) }
{
    explainer::explain(text, lines).unwrap_or(0)
}

// What is told of all that is read, up to one byte more than a text may have, is written, and nothing else.
fn told<R: Read, W: Write>(reader: &mut R, writer: &mut W) -> Result<(), Failure>
    ensures read { OnOk result (IfSome (R.remaining reader.old) (λ input. R.remaining reader.new ≡ Some (drop 65537 input))) }
    ensures written { OnOk result (IfSome (R.remaining reader.old) (λ input.
        Appends (W.contents writer.old) (W.contents writer.new) (explained (take 65537 input)))) }
    ensures unwritten { IfErr result (λ failure. before_writing failure → writer.new ≡ writer.old) }
{
    let mut lines = [0; LONGEST];
    program::answered_into(reader, writer, &mut lines, printed)
}

fn main(rt: HostRuntime) -> io::Result<()> {
    let end = told(&mut rt.stdin(), &mut rt.stdout());
    program::ended(&rt, "why", "the reasons", end)
}
