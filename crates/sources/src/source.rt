ghost use Rattle.std.specs.Prelude.{◌≡◌, List};
ghost use Rattle.rows.specs.declared.row.Row.{Row as RowOf};
ghost use Rattle.sources.specs.declared.source.TakeRefusal.TheVariants.{Fault};
ghost use Rattle.sources.specs.Meaning.{Closing as ClosingOf, upcoming, take_of, refusal_number};

use crate::fault::SourceFault;
use rows::row::Row;

// How a source's list of batches closes: by the end, or by a fault.
pub type Closing = Result<(), SourceFault>;

// Why nothing was taken.
#[derive(Clone, Copy, PartialEq, Eq, Debug)]
pub enum TakeRefusal {
    // the next batch has more rows than the memory
    TooShort,
    Fault(SourceFault),
}

impl TakeRefusal {
    // One of the cases has a field, so the numbers stand here and not at the cases.
    pub fn number(&self) -> u8
        ensures { result ≡ refusal_number self.now }
    {
        match *self {
            TakeRefusal::TooShort => 10,
            TakeRefusal::Fault(fault) => fault.number(),
        }
    }
}

impl From<SourceFault> for TakeRefusal {
    ghost from_gives = { λ e r. r ≡ Fault e };

    fn from(e: SourceFault) -> TakeRefusal {
        TakeRefusal::Fault(e)
    }
}

// A source means a finite list of batches of rows, some perhaps empty, and how that list closes: by the end, or by a fault
// that stays.
pub trait Source {
    type Key;

    ghost batches: { Self → List (List (RowOf Self.Key)) };

    ghost closing: { Self → ClosingOf };

    // How many rows the next batch has; none at the end.
    fn size(&self) -> Result<Option<usize>, SourceFault>
        ensures { result ≡ upcoming (batches self.now) (closing self.now) };

    // Writes the next batch to the start of the memory, removes it from the list, and answers how many rows it had; none
    // at the end.
    fn take(&mut self, memory: &mut [Row<Self::Key>]) -> Result<Option<usize>, TakeRefusal>
        ensures answer { result ≡ (take_of (batches self.old) (closing self.old) memory.old).answer }
        ensures left { batches self.new ≡ (take_of (batches self.old) (closing self.old) memory.old).left }
        ensures closes { closing self.new ≡ closing self.old }
        ensures memory { memory.new ≡ (take_of (batches self.old) (closing self.old) memory.old).memory };
}
