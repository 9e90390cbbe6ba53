ghost use Rattle.std.specs.Prelude.{◌≡◌, ◌≤◌, length};
ghost use Rattle.sources.specs.Log.{commands_of, log_batches, log_closing};
ghost use Rattle.sources.specs.Written.{AsWritten};
ghost use Rattle.sources.specs.Coming.{Found, rest_of, batches_left, closing_left};

use crate::batch::{Coming, HEADER, next_batch, row_count, write_rows};
use crate::fault::SourceFault;
use crate::kind::KeyKind;
use crate::source::{Source, TakeRefusal};
use rows::row::Row;

// A log that is read batch by batch. The bytes of a batch are gone over twice: once to count and check its rows, when it
// becomes the next one, and once to take them.
#[derive(Drop)]
pub struct Log<'a, F> {
    kind: F,
    total: usize,
    coming: Coming<'a>,
    ghost within: { length (rest_of coming) ≤ total },
}

impl<'a, F: KeyKind> Log<'a, F> {
    pub fn new(bytes: &'a [u8], kind: F) -> Log<'a, F>
        ensures batches { batches_left F.KeyKind.layout result.total result.coming ≡ log_batches F.KeyKind.layout bytes.now }
        ensures closing { closing_left F.KeyKind.layout result.total result.coming ≡ log_closing F.KeyKind.layout bytes.now }
        ensures written { AsWritten F.KeyKind.layout bytes.now (batches_left F.KeyKind.layout result.total result.coming) (closing_left F.KeyKind.layout result.total result.coming) }
    {
        Log {
            kind,
            total: bytes.len(),
            coming: opened::<F>(bytes),
        }
    }
}

// What comes first in a log.
fn opened<F: KeyKind>(bytes: &[u8]) -> Coming<'_>
    ensures { Found F.KeyKind.layout (length bytes.now) (commands_of F.KeyKind.layout bytes.now) result }
{
    match bytes {
        [HEADER] => Err(SourceFault::RunsOut(0)),
        [HEADER, code, rest @ ..] if *code == F::CODE => next_batch::<F>(rest, bytes.len()),
        _ => Err(SourceFault::NoHeader(0)),
    }
}

impl<'a, F: KeyKind> Source for Log<'a, F> {
    type Key = F::Key;

    ghost batches = { λ s. batches_left F.KeyKind.layout s.total s.coming };

    ghost closing = { λ s. closing_left F.KeyKind.layout s.total s.coming };

    fn size(&self) -> Result<Option<usize>, SourceFault> {
        Ok(self.coming?.map(|batch| row_count::<F>(batch.rows)))
    }

    fn take(&mut self, memory: &mut [Row<F::Key>]) -> Result<Option<usize>, TakeRefusal> {
        // one match: by `?` what comes next is copied before it is looked at
        match self.coming {
            Ok(Some(batch)) => {
                let count = row_count::<F>(batch.rows);
                if memory.len() < count {
                    return Err(TakeRefusal::TooShort);
                }
                write_rows::<F>(batch.rows, memory);
                self.coming = next_batch::<F>(batch.rest, self.total);
                Ok(Some(count))
            }
            Ok(None) => Ok(None),
            Err(fault) => Err(TakeRefusal::Fault(fault)),
        }
    }
}
