ghost use Rattle.std.specs.Prelude.{◌≡◌};
ghost use Rattle.pipeline.specs.Entries.{lone, pair_of};

use rows::reading::Reading;
use rows::record::Record;

// The streamed row that a pair came from: the batch, named by the place of its first row, and the row in it.
#[derive(Clone, Copy, PartialEq, Eq, Debug)]
pub struct StreamedRow {
    pub batch: u32,
    pub row: u32,
}

// An entry of the block: a pair with the streamed row it came from, or a lone row, which has none. A pair carries both
// readings, so that freezing looks nothing up; until it is frozen it has no verdict.
#[derive(Clone, Copy, PartialEq, Eq, Debug)]
pub struct Entry {
    pub row: Option<StreamedRow>,
    pub verdict: Option<bool>,
    pub record: Record,
    pub left: Reading,
    pub right: Reading,
}

impl Entry {
    pub fn lone(record: Record) -> Entry
        ensures { result ≡ lone «record» }
    {
        let none = Reading::new(0, Reading::NOT_MEASURED, 0);
        Entry {
            row: None,
            verdict: None,
            record,
            left: none,
            right: none,
        }
    }

    pub fn pair(row: StreamedRow, record: Record, left: Reading, right: Reading) -> Entry
        ensures { result ≡ pair_of row «record» left right }
    {
        Entry {
            row: Some(row),
            left,
            right,
            ..Entry::lone(record)
        }
    }
}
