//! What the programs do alike: a trace text is read, and what is told of it is written.
#![tactic(auto)]

mod heap;
#[cfg(test)]
mod tests;

ghost use Rattle.std.specs.Prelude.{◌≡◌, ◌≤◌, ◌↔◌, ℕ, List, length, take, drop, IfOk, OnOk, IfErr, IfSome, IsOk, Some};
ghost use Rattle.std.proofs.lemmas.List.Edits.{sets};
ghost use Rattle.std.specs.Io.KnownBytes.{Appends};
ghost use Rattle.program.specs.Telling.{CanTell, PutsBy, before_writing};

pub use heap::{answered, lines};
use std::io::{self, Read, Write};

/// One byte more than a text may have.
const LONGEST: usize = 65537;

/// Why a text was not answered: it was not read, or there was no memory for its lines; or these were not written.
#[derive(Debug, Drop)]
pub enum Failure {
    Unread(io::Error),
    Unwritten(io::Error),
}

/// Reads a text to its end, or until it is too long for a text, and writes the lines that `put` puts for exactly that into the
/// lent buffer. Where it was not read, nothing is put or written.
pub fn answered_into<R, W, F>(
    reader: &mut R,
    writer: &mut W,
    lines: &mut [u8],
    put: F,
) -> Result<(), Failure>
where
    R: Read,
    W: Write,
    F: FnOnce(&[u8], &mut [u8]) -> usize,
    requires { CanTell (F.pre put) (length lines.old) }
    ensures read { OnOk result (IfSome (R.remaining reader.old) (λ input. R.remaining reader.new ≡ Some (drop 65537 input))) }
    ensures lines_after { OnOk result ((rule : List ℕ → List ℕ) → PutsBy (F.post put) (length lines.old) rule
        → IfSome (R.remaining reader.old) (λ input. lines.new ≡ sets lines.old 0 (rule (take 65537 input)))) }
    ensures written { OnOk result ((rule : List ℕ → List ℕ) → PutsBy (F.post put) (length lines.old) rule
        → IfSome (R.remaining reader.old) (λ input. Appends (W.contents writer.old) (W.contents writer.new) (rule (take 65537 input)))) }
    ensures unput { IfErr result (λ failure. before_writing failure → lines.new ≡ lines.old) }
    ensures unwritten { IfErr result (λ failure. before_writing failure → writer.new ≡ writer.old) }
{
    let mut text = [0; LONGEST];
    let len = filled(reader, &mut text).map_err(Failure::Unread)?;
    let end = put(&text[..len], lines).min(lines.len());
    writer.write_all(&lines[..end]).map_err(Failure::Unwritten)?;
    Ok(())
}

/// Reads until the input has ended or the buffer is full, and answers how many bytes it holds then.
// Stays: a `while`, since each read brings as much as it likes, and no iterator of std reads into a lent buffer.
fn filled<R: Read>(reader: &mut R, buffer: &mut [u8]) -> io::Result<usize>
    ensures within { IfOk result (λ len. len ≤ length buffer.new) }
    ensures text { IfOk result (λ len. IfSome (R.remaining reader.old) (λ input. take len buffer.new ≡ take (length buffer.old) input)) }
    ensures rest { IfOk result (λ len. IfSome (R.remaining reader.old) (λ input. R.remaining reader.new ≡ Some (drop (length buffer.old) input))) }
{
    let mut len = 0;
    while len < buffer.len() {
        let got = reader.read(&mut buffer[len..])?;
        if got == 0 {
            return Ok(len);
        }
        len += got;
    }
    Ok(len)
}

/// Tells a failed read or write on standard error, in the program's name; the program fails exactly where it has not answered.
pub fn ended<R: Eprint>(
    rt: &R,
    program: &str,
    told: &str,
    end: Result<(), Failure>,
) -> io::Result<()>
    ensures { IsOk result ↔ IsOk end }
{
    match end {
        Ok(()) => Ok(()),
        Err(Failure::Unread(error)) => {
            eprintln!(rt; "{program}: standard input could not be read")?;
            Err(error)
        }
        Err(Failure::Unwritten(error)) => {
            eprintln!(rt; "{program}: {told} could not be written")?;
            Err(error)
        }
    }
}
