#![tactic(auto)]
// A reader of trace text: a lent text and a place in it. It is thin: whoever has a plain slice calls `trace::event_at` and `line::line_at`.
// As an iterator it gives the events from its place on, up to the first wrong line, which is the last item.
ghost use Rattle.std.specs.Prelude.{◌≡◌};
ghost use Rattle.std.specs.Iterator.{YieldsFirst, item_count};
ghost use Rattle.line.specs.Line.{line_at, start_of, IsPart};
ghost use Rattle.trace.specs.Trace.{event_at};

use event::Event;
use trace::Misread;

#[derive(Clone, Copy)]
pub struct TraceReader<'a> {
    pub text: &'a [u8],
    pub at: usize,
}

impl<'a> TraceReader<'a> {
    pub fn new(text: &'a [u8]) -> TraceReader<'a>
        ensures { (result.text ≡ text.entry) × (result.at ≡ 0) }
    {
        TraceReader { text, at: 0 }
    }

    // The same text at another place.
    pub fn moved(self, at: usize) -> TraceReader<'a>
        ensures { (result.text ≡ self.entry.text) × (result.at ≡ at) }
    {
        TraceReader { at, ..self }
    }

    // The event at the reader's place and where the next one starts; or the first wrong line.
    pub fn read(self) -> Result<(Event, usize), Misread>
        ensures { result ≡ event_at self.entry.text.now self.entry.at }
    {
        trace::event_at(self.text, self.at)
    }

    // The line at the reader's place, as a part of the text that it holds.
    pub fn current(self) -> &'a [u8]
        ensures { (result.now ≡ line_at self.entry.text.now self.entry.at)
            × (IsPart result self.entry.text (start_of self.entry.text.now self.entry.at)) }
    {
        line::line_at(self.text, self.at)
    }
}

impl<'a> Iterator for TraceReader<'a> {
    ghost use Rattle.trace_reader.specs.Left.{readings_left};

    type Item = Result<Event, Misread>;

    ghost next_gives = { YieldsFirst readings_left };

    ghost remaining = { item_count readings_left };

    fn next(&mut self) -> Option<Result<Event, Misread>> {
        if self.text.len() <= self.at {
            return None;
        }
        match self.read() {
            Ok((event, next)) => {
                self.at = next;
                Some(Ok(event))
            }
            Err(misread) => {
                self.at = self.text.len();
                Some(Err(misread))
            }
        }
    }
}

// The event at a place of a text, by a reader that is made, moved there and asked: for who has a plain slice.
pub fn read_at(text: &[u8], at: usize) -> Result<(Event, usize), Misread>
    ensures { result ≡ event_at text.now at }
{
    TraceReader::new(text).moved(at).read()
}

// The line at a place of a text, as a part of it, by a reader in the same way.
pub fn line_of(text: &[u8], at: usize) -> &[u8]
    ensures { (result.now ≡ line_at text.now at) × (IsPart result text.entry (start_of text.now at)) }
{
    TraceReader::new(text).moved(at).current()
}
