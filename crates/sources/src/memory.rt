ghost use Rattle.std.specs.Prelude.{◌≡◌, List, Ok};
ghost use Rattle.rows.specs.declared.row.Row.{Row as RowOf};
ghost use Rattle.sources.specs.Meaning.{upcoming};
ghost use Rattle.sources.specs.Memory.{cut, CutEvery, batches_of, closing_of};

use crate::fault::SourceFault;
use crate::source::{Source, TakeRefusal};
use rows::row::Row;

#[cfg(test)]
pub(crate) mod tests;

// Rows in memory as a source: one batch for every so many rows.
#[derive(Drop)]
pub struct Memory<'a, K> {
    // those that are not yet taken
    rows: &'a [Row<K>],
    // 0 counts as 1
    every: usize,
}

impl<'a, K> Memory<'a, K> {
    // The rows cut every so many rows; 0 counts as 1.
    pub fn new(rows: &'a [Row<K>], every: usize) -> Memory<'a, K>
        ensures batches { batches_of result ≡ cut every rows.now }
        ensures closing { closing_of result ≡ Ok tt }
        ensures cuts { CutEvery every rows.now (batches_of result) }
        ensures only { (other : List (List (RowOf K))) → CutEvery every rows.now other → other ≡ batches_of result }
    {
        Memory { rows, every }
    }

    // How many rows the next batch has; none where all rows are taken.
    fn next(&self) -> Option<usize>
        ensures { Ok result ≡ upcoming (batches_of self.now) (Ok tt) }
    {
        if self.rows.is_empty() {
            return None;
        }
        Some(self.rows.len().min(self.every.max(1)))
    }
}

impl<'a, K: Copy> Source for Memory<'a, K> {
    type Key = K;

    ghost batches = { batches_of };

    ghost closing = { closing_of };

    fn size(&self) -> Result<Option<usize>, SourceFault> {
        Ok(self.next())
    }

    fn take(&mut self, memory: &mut [Row<K>]) -> Result<Option<usize>, TakeRefusal> {
        let Some(n) = self.next() else {
            return Ok(None);
        };
        if memory.len() < n {
            return Err(TakeRefusal::TooShort);
        }
        let (batch, left) = self.rows.split_at(n);
        memory[..n].copy_from_slice(batch);
        self.rows = left;
        Ok(Some(n))
    }
}
