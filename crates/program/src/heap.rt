//! A text read and what is told of it written, with both on the heap: for programs with a small stack, and for those whose reads are
//! interrupted. Memory is taken as the text needs it.
#![tactic(auto)]

ghost use Rattle.std.specs.Prelude.{◌≡◌, ◌≤◌, ℕ, List, length, take, drop, IfOk, OnOk, IfErr, IfSome, Some};
ghost use Rattle.std.specs.Io.KnownBytes.{Appends};
ghost use Rattle.program.specs.Telling.{CanTell, PutsBy, before_writing};

use crate::Failure;
use std::alloc::{AllocError, Global};
use std::io::{self, Read, Write};

/// One byte more than a text may have.
const ROOM: usize = 65537;

/// What is asked for at a time, at most.
const PIECE: usize = 4096;

/// Reads a text to its end, or until it is too long for a text, and writes the lines that `put` puts for exactly that into a buffer
/// of `longest` bytes. A read that was interrupted is tried again, where `answered_into` refuses it. Where the text was not read, or
/// there is no memory for it or its lines, nothing is written, and all of these are told as a text that was not read.
pub fn answered<R, W, F>(
    alloc: Global,
    reader: &mut R,
    writer: &mut W,
    longest: usize,
    put: F,
) -> Result<(), Failure>
where
    R: Read,
    W: Write,
    F: FnOnce(&[u8], &mut [u8]) -> usize,
    requires { CanTell (F.pre put) longest }
    ensures read { OnOk result (IfSome (R.remaining reader.old) (λ input. R.remaining reader.new ≡ Some (drop 65537 input))) }
    ensures written { OnOk result ((rule : List ℕ → List ℕ) → PutsBy (F.post put) longest rule
        → IfSome (R.remaining reader.old) (λ input. Appends (W.contents writer.old) (W.contents writer.new) (rule (take 65537 input)))) }
    ensures unwritten { IfErr result (λ failure. before_writing failure → writer.new ≡ writer.old) }
{
    let text = text_of(alloc, reader).map_err(Failure::Unread)?;
    let lines = lines(alloc, &text, longest, put).map_err(|e| Failure::Unread(e.into()))?;
    writer.write_all(&lines).map_err(Failure::Unwritten)?;
    Ok(())
}

/// What a reader has, up to one byte more than a text may have. A read that was interrupted is tried again.
// Stays: a loop beside that of `filled`, which the programs run, and which asks for no memory and ends at such a read.
fn text_of<R: Read>(alloc: Global, reader: &mut R) -> io::Result<Vec<u8>>
    ensures text { IfOk result (λ text. IfSome (R.remaining reader.old) (λ input. text.items ≡ take 65537 input)) }
    ensures rest { IfOk result (λ text. IfSome (R.remaining reader.old) (λ input. R.remaining reader.new ≡ Some (drop 65537 input))) }
{
    let mut text = Vec::new(alloc);
    for _ in 0..u64::MAX {
        let len = text.len();
        if ROOM <= len {
            return Ok(text);
        }
        text.resize(ROOM.min(len + PIECE), 0)?;
        match reader.read(&mut text[len..]) {
            Ok(got) => {
                text.truncate(len + got);
                if got == 0 {
                    return Ok(text);
                }
            }
            Err(error) => {
                text.truncate(len);
                if error.kind() != io::ErrorKind::Interrupted {
                    return Err(error);
                }
            }
        }
    }
    Err(io::Error::from(io::ErrorKind::Interrupted))
}

/// The lines that `put` puts for a text into a buffer of `longest` bytes, up to the end that it returns.
pub fn lines<F: FnOnce(&[u8], &mut [u8]) -> usize>(
    alloc: Global,
    text: &[u8],
    longest: usize,
    put: F,
) -> Result<Vec<u8>, AllocError>
    requires { CanTell (F.pre put) longest }
    ensures { (rule : List ℕ → List ℕ) → PutsBy (F.post put) longest rule → IfOk result (λ lines. lines.items ≡ rule text.now) }
{
    let mut lines = vec![in alloc; 0; longest]?;
    let end = put(text, lines.as_mut_slice());
    lines.truncate(end);
    Ok(lines)
}
