ghost use Rattle.std.specs.Prelude.{◌≡◌, map};
ghost use Rattle.sources.specs.Clock.{moved, moved_row, moved_batches};

use crate::fault::SourceFault;
use crate::source::{Source, TakeRefusal};
use rows::row::Row;

#[cfg(test)]
mod tests;

// A source with every moment moved by an offset in milliseconds.
#[derive(Drop)]
pub struct Clock<S> {
    inner: S,
    offset: i32,
}

// The moment moved by the offset, held within its 32 bits. What becomes of one that would leave them is decided here alone.
pub fn moved(moment: u32, offset: i32) -> u32
    ensures { result ≡ moved offset moment }
{
    moment.saturating_add_signed(offset)
}

fn move_all<K>(rows: &mut [Row<K>], offset: i32)
    ensures { rows.new ≡ map (moved_row offset) rows.old }
{
    for row in rows {
        row.reading.moment = moved(row.reading.moment, offset);
    }
}

impl<S: Source> Clock<S> {
    // The source below with the offset added to every moment.
    pub fn new(inner: S, offset: i32) -> Clock<S>
        ensures value { result ≡ record { inner = inner; offset = offset } }
        ensures batches { moved_batches result.offset (S.Source.batches result.inner) ≡ moved_batches offset (S.Source.batches inner) }
        ensures closing { S.Source.closing result.inner ≡ S.Source.closing inner }
    {
        Clock { inner, offset }
    }

    // The source below, with what it has left.
    pub fn into_inner(self) -> S
        ensures { result ≡ self.inner }
    {
        let Clock { inner, offset: _ } = self;
        inner
    }
}

impl<S: Source> Source for Clock<S> {
    type Key = S::Key;

    ghost batches = { λ s. moved_batches s.offset (S.Source.batches s.inner) };

    ghost closing = { λ s. S.Source.closing s.inner };

    fn size(&self) -> Result<Option<usize>, SourceFault> {
        self.inner.size()
    }

    // Only the rows that were written are moved; what else the memory holds stays.
    fn take(&mut self, memory: &mut [Row<S::Key>]) -> Result<Option<usize>, TakeRefusal> {
        let next = self.inner.take(memory)?;
        if let Some(n) = next {
            move_all(&mut memory[..n], self.offset);
        }
        Ok(next)
    }
}
