ghost use Rattle.std.specs.Prelude.{◌≡◌, ◌+◌, ◌≤◌, length};
ghost use Rattle.sources.specs.Meaning.{upcoming};
ghost use Rattle.machine.specs.Machine.{disorder, last_of};
ghost use Rattle.join.specs.Loads.{on_side, checked, breaks};
ghost use Rattle.join.specs.declared.load.LoadFault.TheVariants.{Source as FromSource};

use machine::fault::JoinFault;
use rows::kind::Side;
use rows::order::KeyOrder;
use rows::row::Row;
use sources::fault::SourceFault;
use sources::source::Source;

// The most rows that a side may have.
pub(crate) const MOST_ROWS: usize = 16_777_215;

// Why a batch is not loaded, apart from the side.
#[derive(Clone, Copy)]
pub(crate) enum LoadFault {
    TableFull,
    TooManyBatches,
    TooManyRows,
    Source(SourceFault),
}

impl From<SourceFault> for LoadFault {
    ghost from_gives = { λ f r. r ≡ FromSource f };

    fn from(fault: SourceFault) -> LoadFault {
        LoadFault::Source(fault)
    }
}

impl LoadFault {
    // The fault of a side, whose next row has the place `first`.
    pub(crate) fn on(self, side: Side, first: u32) -> JoinFault
        ensures { result ≡ on_side self side first }
    {
        match self {
            LoadFault::TableFull => JoinFault::TableFull { side, first },
            LoadFault::TooManyBatches => JoinFault::TooManyBatches { first },
            LoadFault::TooManyRows => JoinFault::TooManyRows { side, first },
            LoadFault::Source(fault) => JoinFault::Source { side, fault },
        }
    }
}

// What comes next from a source of which `read` rows were read, where the table has space for `space` rows more and
// `full` says that no batch more can be held. The checks go by size alone.
pub(crate) fn next_size<S: Source>(
    source: &S,
    read: u32,
    full: bool,
    space: usize,
) -> Result<Option<usize>, LoadFault>
    requires { read ≤ 16777215 }
    ensures { result ≡ checked (upcoming (S.Source.batches source.now) (S.Source.closing source.now)) read full space }
{
    match source.size()? {
        Some(n) if n > MOST_ROWS - read as usize => Err(LoadFault::TooManyRows),
        Some(n) if n > 0 && full => Err(LoadFault::TooManyBatches),
        Some(n) if n > space => Err(LoadFault::TableFull),
        next => Ok(next),
    }
}

// Whether a row is before the one before it, if any.
fn is_unsorted<O: KeyOrder>(order: &O, last: &Option<Row<O::Key>>, row: &Row<O::Key>) -> bool
where
    O::Key: Copy,
    ensures { result ≡ breaks (O.KeyOrder.within order.now) last.now row.now }
{
    last.is_some_and(|earlier| order.compare_within(&earlier.key, &row.key).is_gt())
}

// The place of the first row that is before its predecessor, of rows from the place `first` on; `last` is the row before
// them.
pub(crate) fn first_unsorted<O: KeyOrder>(
    order: &O,
    last: &Option<Row<O::Key>>,
    rows: &[Row<O::Key>],
    first: u32,
) -> Option<u32>
where
    O::Key: Copy,
    requires { first + length rows.now ≤ 16777215 }
    ensures { result ≡ disorder (O.KeyOrder.within order.now) last.now rows.now first }
{
    let mut before = *last;
    for (i, row) in rows.iter().enumerate() {
        if is_unsorted(order, &before, row) {
            return Some(first + i as u32);
        }
        before = Some(*row);
    }
    None
}

// The last of the rows, or what was last before them.
pub(crate) fn last_row<K: Copy>(last: Option<Row<K>>, rows: &[Row<K>]) -> Option<Row<K>>
    ensures { result ≡ last_of last rows.now }
{
    rows.last().copied().or(last)
}
