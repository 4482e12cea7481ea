#![tactic(auto)]
// A trace read event by event and written again, or searched for its first wrong line: the trace reader and the trace writer
// at work. An event has one text only, so that what is written is what was read.
ghost use Rattle.std.specs.Prelude.{◌≡◌, length, take};
ghost use Rattle.std.proofs.lemmas.List.Edits.{sets};
ghost use Rattle.buffer.specs.Put.{put_of, held_of};
ghost use Rattle.rewriter.specs.Rewritten.{copy_end};
ghost use Rattle.rewriter.specs.Wrong.{wrong_line};

use event::Refusal;
use trace_reader::TraceReader;

// How many bytes of a text are written again into a lent buffer, from its start: those of the whole events up to the
// first that is not well-formed or does not fit.
pub fn rewrite(text: &[u8], copy: &mut [u8]) -> usize
    ensures value { result ≡ copy_end text.now (length copy.old) }
    ensures copy_after { copy.new
        ≡ sets copy.old 0 (take (copy_end text.now (length copy.old)) text.now) }
{
    let mut out: usize = 0;
    for reading in TraceReader::new(text) {
        let Ok(event) = reading else {
            return out;
        };
        let Ok(end) = trace_writer::put_event(event, copy, out) else {
            return out;
        };
        out = end;
    }
    out
}

// The first wrong line of a text, without its newline, whole into a lent buffer from its start: where it ends, 0 if no line
// is wrong or the wrong one is empty or missing; or that it was refused, and the buffer is as it was.
pub fn wrong_line(text: &[u8], line: &mut [u8]) -> Result<usize, Refusal>
    ensures value { result ≡ put_of line.old 0 (wrong_line text.now) }
    ensures line_after { line.new ≡ held_of line.old 0 (wrong_line text.now) }
{
    for reading in TraceReader::new(text) {
        if let Err(misread) = reading {
            return buffer::put_whole(trace_reader::line_of(text, misread.start), line, 0);
        }
    }
    Ok(0)
}
