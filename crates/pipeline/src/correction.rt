ghost use Rattle.std.specs.Prelude.{◌≡◌, false, [], ◌∷◌, length, take};
ghost use Rattle.pipeline.specs.declared.correction.Fate.TheVariants.{Kept, Alone, Dropped};
ghost use Rattle.pipeline.specs.Correction.{same_row, fate, seen_after, fates, alone, corrected, RowByRow, example_pair, example};

use crate::entry::{Entry, StreamedRow};
use crate::orient::lone_record;
use rows::kind::Kind;
use rows::record::Record;

// What becomes of an entry: it stays, it becomes its streamed row alone, or it goes.
#[derive(Clone, Copy, PartialEq, Eq, Debug)]
pub enum Fate {
    Kept,
    Alone,
    Dropped,
}

// Row numbers begin again with each batch, so both count.
fn same_row(a: Option<StreamedRow>, b: Option<StreamedRow>) -> bool
    ensures { result ≡ same_row a b }
{
    match (a, b) {
        (Some(a), Some(b)) => a == b,
        _ => false,
    }
}

fn fate_of(verdict: Option<bool>, seen: bool, last: bool) -> Fate
    ensures { result ≡ fate verdict seen last }
{
    match verdict {
        None | Some(true) => Fate::Kept,
        Some(false) if last && !seen => Fate::Alone,
        Some(false) => Fate::Dropped,
    }
}

// Whether a yes was seen in the row of the next entry.
fn yes_seen_after(verdict: Option<bool>, seen: bool, last: bool) -> bool
    ensures { result ≡ seen_after verdict seen last }
{
    !last && (seen || verdict == Some(true))
}

fn alone_entry(kind: Kind, entry: Entry) -> Entry
    ensures { result ≡ alone kind entry }
{
    Entry {
        record: lone_record(kind, entry.record),
        ..entry
    }
}

// Judges each streamed row by all its entries. What is left moves to the front, and the answer is how many entries that is;
// the entries behind them are free.
pub fn correct_entries(kind: Kind, entries: &mut [Entry]) -> usize
    ensures front { take result entries.new ≡ corrected kind false entries.old }
    ensures count { result ≡ length (corrected kind false entries.old) }
    ensures rows { RowByRow kind }
{
    let mut seen = false;
    let mut left = 0;
    // by index: an entry is judged with the next one, and written before the place where it is read
    for i in 0..entries.len() {
        let entry = entries[i];
        let last = match entries.get(i + 1) {
            Some(next) => !same_row(entry.row, next.row),
            None => true,
        };
        match fate_of(entry.verdict, seen, last) {
            Fate::Kept => {
                entries[left] = entry;
                left += 1;
            }
            Fate::Alone => {
                entries[left] = alone_entry(kind, entry);
                left += 1;
            }
            Fate::Dropped => {}
        }
        seen = yes_seen_after(entry.verdict, seen, last);
    }
    left
}

// A pair of a row of the first streamed batch, with its verdict.
fn example_pair(row: u32, buffered: u32, yes: bool) -> Entry
    ensures { result ≡ example_pair row buffered yes }
{
    Entry {
        row: Some(StreamedRow { batch: 0, row }),
        verdict: Some(yes),
        ..Entry::lone(Record::Pair(row, buffered))
    }
}

// Row 0 no, row 0 no, no verdict, row 1 yes, row 1 no: what correction makes of them shows all its cases.
pub fn example_entries() -> [Entry; 5]
    ensures entries { result ≡ example }
    ensures fates { fates false result ≡ Dropped ∷ Alone ∷ Kept ∷ Kept ∷ Dropped ∷ [] }
{
    [
        example_pair(0, 0, false),
        example_pair(0, 1, false),
        Entry::lone(Record::RightAlone(2)),
        example_pair(1, 3, true),
        example_pair(1, 4, false),
    ]
}

#[cfg(test)]
mod tests {
    use super::*;

    #[test]
    fn judges_a_row_by_all_its_entries(rt: HostRuntime) {
        let mut entries = example_entries();
        assert_eq!(rt; correct_entries(Kind::Left, &mut entries), 3);
        assert_eq!(rt; entries[0].record, Record::LeftAlone(0));
        assert_eq!(rt; entries[1].record, Record::RightAlone(2));
        assert_eq!(rt; entries[2].record, Record::Pair(1, 3));
    }

    #[test]
    fn tells_rows_of_two_batches_apart(rt: HostRuntime) {
        let mut entries = [example_pair(0, 0, false), example_pair(0, 1, true)];
        entries[1].row = Some(StreamedRow { batch: 1, row: 0 });
        assert_eq!(rt; correct_entries(Kind::Left, &mut entries), 2);
        assert_eq!(rt; entries[0].record, Record::LeftAlone(0));
        assert_eq!(rt; entries[1].record, Record::Pair(0, 1));
    }

    #[test]
    fn leaves_nothing_of_nothing(rt: HostRuntime) {
        let mut entries: [Entry; 0] = [];
        assert_eq!(rt; correct_entries(Kind::Full, &mut entries), 0);
    }
}
