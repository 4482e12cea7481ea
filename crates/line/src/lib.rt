#![tactic(auto)]
// Lines of a lent text, by the index at which they start.
// A line that no newline ends, and the empty one at the end of the text, are lines that end with the text.
ghost use Rattle.std.specs.Prelude.{◌≡◌};
ghost use Rattle.line.specs.Line.{same_bytes, line_at, end_at, start_of, IsPart};

// Whether a and b hold the same bytes.
// Stays: with == in the closure of a find, as in `trace::kind_named`, the proof of what is found did not close.
pub fn same(a: &[u8], b: &[u8]) -> bool
    ensures { result ≡ same_bytes a.now b.now }
{
    a == b
}

// Where the line that starts at `at` ends: at its newline, or at the end of the text.
pub fn line_end(text: &[u8], at: usize) -> usize
    ensures { result ≡ end_at text.now at }
{
    let rest = &text[at.min(text.len())..];
    at + rest.iter().position(|b| *b == b'\n').unwrap_or(rest.len())
}

// The line that starts at `at`, without its newline, as a part of the text; past the end, the empty part there.
pub fn line_at(text: &[u8], at: usize) -> &[u8]
    ensures { (result.now ≡ line_at text.now at) × (IsPart result text.entry (start_of text.now at)) }
{
    let n = text.len();
    if n < at {
        return &text[n..n];
    }
    let e = line_end(text, at);
    &text[at..e]
}
