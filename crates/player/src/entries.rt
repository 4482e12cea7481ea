// The entries of a report, one after the other: the lines of each event, and the ending at the first wrong line.
ghost use Rattle.std.specs.Prelude.{◌≡◌, ◌+◌, ◌*◌, ◌≤◌, length};
ghost use Rattle.std.specs.Iterator.{YieldsFirst, item_count};
ghost use Rattle.buffer.specs.Put.{put_of, held_of};
ghost use Rattle.trace_reader.specs.Left.{readings_left};

use event::{Refusal, Shown};
use keeper::Keeper;
use trace_reader::TraceReader;

#[derive(Clone, Copy)]
pub enum Entry {
    Answered(Result<u8, Refusal>, Shown),
    Malformed(u32),
}

impl Entry {
    ghost use Rattle.player.specs.Entries.{entry_bytes};

    pub fn len(self) -> usize
        ensures { (result ≡ length (entry_bytes self)) × (result ≤ 68) }
    {
        match self {
            Entry::Answered(answer, shown) => report::entry_len(answer, shown),
            Entry::Malformed(line) => report::malformed_len(line),
        }
    }

    pub fn put(self, buf: &mut [u8], at: usize) -> Result<usize, Refusal>
        ensures value { result ≡ put_of buf.old at (entry_bytes self) }
        ensures buf_after { buf.new ≡ held_of buf.old at (entry_bytes self) }
    {
        match self {
            Entry::Answered(answer, shown) => report::put_entry(answer, shown, buf, at),
            Entry::Malformed(line) => report::put_malformed(line, buf, at),
        }
    }
}

/// What is left to read of a text, the keeper that the events before it left, and the number of its first line.
#[derive(Clone, Copy)]
pub struct Entries<'a> {
    pub reader: TraceReader<'a>,
    pub keeper: Keeper,
    pub line: u32,
    ghost in_range: { line + 4 * length (readings_left reader) ≤ 262145 },
}

impl<'a> Iterator for Entries<'a> {
    ghost use Rattle.player.specs.Left.{entries_left};

    type Item = Entry;

    ghost next_gives = { YieldsFirst entries_left };

    ghost remaining = { item_count entries_left };

    fn next(&mut self) -> Option<Entry> {
        match self.reader.next()? {
            Ok(event) => {
                let o = keeper::step(self.keeper, event);
                self.keeper = o.keeper;
                self.line += 4;
                Some(Entry::Answered(o.answer, o.shown))
            }
            Err(misread) => Some(Entry::Malformed(self.line + u32::from(misread.line))),
        }
    }
}
