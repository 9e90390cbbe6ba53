ghost use Rattle.filters.specs.declared.filter.Verdict.TheVariants.{No};

use super::*;
use crate::entry::StreamedRow;
use filters::filter::Verdict;
use rows::reading::Reading;
use std::process::Abort;

#[derive(Drop)]
struct Refuse;

impl Filter for Refuse {
    ghost says = { λ _ _ _. No };

    fn ask(&self, _left: &Reading, _right: &Reading) -> Verdict {
        Verdict::No
    }
}

fn judge(filter: &Option<Refuse>, kind: Kind) -> Judge<'_, Refuse> {
    Judge {
        filter,
        kind,
        base: 0,
    }
}

fn row(place: u32) -> Entry {
    Entry::lone(Record::LeftAlone(place))
}

fn check_due(rt: &impl Abort, queue: &mut Queue, block: &[Entry], records: &[Record]) {
    for record in records {
        assert_eq!(rt; queue.next_due(block), Some(*record));
        queue.hand(block);
    }
    assert_eq!(rt; queue.next_due(block), None);
}

#[test]
fn fills_the_block_to_its_last_entry(rt: HostRuntime) {
    let mut block = [row(0); 4];
    let mut states = States::new();
    let mut queue = Queue::new();
    assert_eq!(rt; queue.push(&mut block, row(1)), Ok(()));
    assert_eq!(rt; queue.note_rows(Kind::Full, 7, 3, &mut block), Ok(()));
    assert_eq!(rt; queue.push(&mut block, row(2)), Err(Refused));
    assert_eq!(rt;
        queue.note_rows(Kind::Full, 10, 1, &mut block),
        Err(Refused)
    );
    assert_eq!(rt;
        queue.correct(Kind::Full, &mut block),
        Err(Refused),
        "a row is not frozen yet"
    );
    assert_eq!(rt;
        queue.freeze_all(&judge(&Some(Refuse), Kind::Full), &mut states, &mut block),
        Ok(())
    );
    assert_eq!(rt; queue.correct(Kind::Full, &mut block), Ok(()));
    assert_eq!(rt;
        queue.push(&mut block, row(2)),
        Err(Refused),
        "records are due"
    );
    let records = [
        Record::RightAlone(7),
        Record::RightAlone(8),
        Record::RightAlone(9),
        Record::LeftAlone(1),
    ];
    check_due(&rt, &mut queue, &block, &records);
}

#[test]
fn lets_only_the_rows_of_the_batch_leave(rt: HostRuntime) {
    let mut block = [row(0); 3];
    let mut states = States::new();
    let mut queue = Queue::new();
    assert_eq!(rt; queue.note_rows(Kind::Full, 7, 3, &mut block), Ok(()));
    let batch = Leaving {
        first: 7,
        rows: 2,
        from: 0,
        keep: 1,
    };
    assert_eq!(rt;
        queue.leave(Kind::Full, true, batch, &states, &mut block),
        Ok(())
    );
    assert_eq!(rt; queue.release(&mut block), Ok(()));
    check_due(
        &rt,
        &mut queue,
        &block,
        &[Record::RightAlone(7), Record::RightAlone(8)],
    );
    assert_eq!(rt;
        queue.freeze_all(&judge(&None, Kind::Full), &mut states, &mut block),
        Ok(())
    );
    assert_eq!(rt; queue.release(&mut block), Ok(()));
    check_due(&rt, &mut queue, &block, &[Record::RightAlone(9)]);
}

#[test]
fn notes_up_to_the_last_place(rt: HostRuntime) {
    let mut block = [row(0); 3];
    let mut queue = Queue::new();
    assert_eq!(rt;
        queue.note_rows(Kind::Full, u32::MAX, 2, &mut block),
        Err(Refused)
    );
    assert_eq!(rt;
        queue.note_rows(Kind::Full, u32::MAX, 1, &mut block),
        Ok(())
    );
}

#[test]
fn hands_over_a_failed_row_alone_once(rt: HostRuntime) {
    let mut block = [row(0); 2];
    let mut states = States::new();
    let mut queue = Queue::new();
    let at = StreamedRow { batch: 0, row: 0 };
    let reading = Reading::new(0, 0, 0);
    assert_eq!(rt;
        queue.push(
            &mut block,
            Entry::pair(at, Record::Pair(0, 0), reading, reading),
        ),
        Ok(())
    );
    assert_eq!(rt;
        queue.push(
            &mut block,
            Entry::pair(at, Record::Pair(0, 1), reading, reading),
        ),
        Ok(())
    );
    assert_eq!(rt;
        queue.freeze(&judge(&Some(Refuse), Kind::Left), &mut states, &mut block),
        Ok(())
    );
    assert_eq!(rt; queue.correct(Kind::Left, &mut block), Ok(()));
    check_due(&rt, &mut queue, &block, &[Record::LeftAlone(0)]);
}
