ghost use Rattle.std.specs.Prelude.{◌≡◌, ◌≤◌, min, ◌++◌, length, take, drop};
ghost use Rattle.pipeline.specs.Entries.{pair_of};
ghost use Rattle.pipeline.specs.Held.{holding, run_at, pairs_with};
ghost use Rattle.pipeline.specs.Orient.{paired};
ghost use Rattle.rows.specs.Sides.{left_of, right_of};

use crate::batch::BufferedBatch;
use crate::entry::{Entry, StreamedRow};
use crate::held::BufferedData;
use crate::orient::paired_record;
use rows::kind::Kind;
use rows::reading::Reading;
use rows::row::Row;

// A row of a held batch.
#[derive(Clone, Copy, PartialEq, Eq, Debug)]
pub struct Position {
    pub batch: usize,
    pub row: u32,
}

// Where a scan stopped, and how many pairs it has written.
#[derive(Clone, Copy, PartialEq, Eq, Debug)]
pub struct Stop {
    pub count: usize,
    pub position: Position,
}

// The pair of a streamed row with a buffered row, not frozen yet: each reading stands on the side of its row. What is given of
// either row is what its tables have; a struct of it would be made for one call.
fn pair_entry(
    kind: Kind,
    row: StreamedRow,
    place: u32,
    reading: Reading,
    buffered: u32,
    partner: Reading,
) -> Entry
    ensures { result ≡ pair_of row (paired kind place buffered) (left_of kind reading partner) (right_of kind reading partner) }
{
    let (left, right) = kind.oriented(reading, partner);
    Entry::pair(row, paired_record(kind, place, buffered), left, right)
}

impl BufferedData {
    // Pairs a streamed row with the rows of the run, from a position on, until all are paired or `out` is full; from where it
    // stopped it can go on.
    pub fn pair_rows<K>(
        &self,
        kind: Kind,
        rows: &[Row<K>],
        from: Position,
        row: StreamedRow,
        place: u32,
        reading: Reading,
        out: &mut [Entry],
    ) -> Stop
        ensures count { result.count ≡ min (length (run_at (holding self.now) from.batch from.row rows.now)) (length out.old) }
        ensures written { out.new ≡ pairs_with kind row place reading (take result.count (run_at (holding self.now) from.batch from.row rows.now)) ++ drop result.count out.old }
        ensures behind { self.now.count ≤ from.batch → result.position ≡ from }
        ensures left { run_at (holding self.now) result.position.batch result.position.row rows.now ≡ drop result.count (run_at (holding self.now) from.batch from.row rows.now) }
    {
        let known = rows.len().min(self.held);
        // counted, since `out` may fill up within a batch; of a chain that writes it in a closure no clause says what it leaves
        let mut count = 0;
        let mut start = from.row;
        let mut first = self.rows_of(from.batch);
        let end = Position {
            batch: self.count,
            row: 0,
        };
        // a scan that begins behind the held batches stays where it begins
        let mut position = if from.batch < self.count { end } else { from };
        'scan: for batch in from.batch..self.count {
            let range = self.batches[batch];
            for at in start..range.end {
                let index = first + at as usize;
                if index >= known {
                    break;
                }
                if count == out.len() {
                    position = Position { batch, row: at };
                    break 'scan;
                }
                let buffered = self.base + index as u32;
                let partner = rows[index].reading;
                out[count] = pair_entry(kind, row, place, reading, buffered, partner);
                count += 1;
            }
            first += range.rows as usize;
            start = 0;
        }
        Stop { count, position }
    }
}

#[cfg(test)]
mod tests {
    use super::*;
    use rows::record::Record;

    const STREAMED: StreamedRow = StreamedRow { batch: 5, row: 2 };

    fn row(moment: u32) -> Row<u8> {
        Row {
            key: 1,
            reading: Reading::new(moment, 0, 0),
        }
    }

    // rows 1 to 3 of a table with batches of 2, 1 and 2 rows, whose first row has the place 0
    fn held() -> BufferedData {
        let mut data = BufferedData::new();
        let _ = data.push(2);
        let _ = data.seed();
        data.pass();
        let _ = data.seed();
        let _ = data.push(1);
        let _ = data.extend(1);
        let _ = data.push(2);
        let _ = data.extend(1);
        data
    }

    #[test]
    fn stops_when_full_and_goes_on_from_there(rt: HostRuntime) {
        let table = [row(10), row(11), row(12), row(13), row(14)];
        let streamed = Reading::new(99, 0, 0);
        let mut out = [Entry::lone(Record::LeftAlone(0)); 2];
        let from = Position { batch: 0, row: 1 };
        let stop = held().pair_rows(Kind::Right, &table, from, STREAMED, 7, streamed, &mut out);
        assert_eq!(rt; stop.count, 2);
        assert_eq!(rt; out[0].record, Record::Pair(1, 7));
        assert_eq!(rt; out[0].left.moment, 11);
        assert_eq!(rt; out[0].right.moment, 99);
        assert_eq!(rt; out[1].record, Record::Pair(2, 7));
        let stop = held().pair_rows(
            Kind::Right,
            &table,
            stop.position,
            STREAMED,
            7,
            streamed,
            &mut out,
        );
        assert_eq!(rt; stop.count, 1);
        assert_eq!(rt; out[0].record, Record::Pair(3, 7));
        assert_eq!(rt; out[1].record, Record::Pair(2, 7));
    }
}
