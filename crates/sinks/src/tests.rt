use crate::cap::Cap;
use crate::list::RecordList;
use crate::sink::{Sink, Unfit, take_all};
use crate::tally::{Counts, Tally};
use rows::record::Record;
use std::test::Fail;

const PAIR: Record = Record::Pair(4, 7);

const LEFT: Record = Record::LeftAlone(5);

const RIGHT: Record = Record::RightAlone(8);

#[test]
fn list_takes_what_it_has_room_for(rt: HostRuntime) -> Result<(), Fail> {
    let mut list = RecordList::with_room(rt.alloc(), 2)?;
    assert_eq!(rt; take_all(&mut list, &[PAIR, LEFT, RIGHT]), 2);
    assert_eq!(rt; list.records(), [PAIR, LEFT].as_slice());
    assert!(rt; !list.fits(RIGHT));
    assert_eq!(rt; list.take(RIGHT), Err(Unfit));
    assert_eq!(rt; list.records(), [PAIR, LEFT].as_slice());
    assert_eq!(rt; list.room(), 2);
    list.clear();
    assert_eq!(rt; list.take(RIGHT), Ok(()));
    assert_eq!(rt; list.records(), [RIGHT].as_slice());
    Ok(())
}

#[test]
fn list_without_room_takes_nothing(rt: HostRuntime) -> Result<(), Fail> {
    let mut list = RecordList::with_room(rt.alloc(), 0)?;
    assert!(rt; !list.fits(PAIR));
    assert_eq!(rt; list.take(PAIR), Err(Unfit));
    assert_eq!(rt; Unfit.number(), 11);
    assert_eq!(rt; list.records().len(), 0);
    Ok(())
}

#[test]
fn tally_counts_up_to_its_limit(rt: HostRuntime) -> Result<(), Fail> {
    let mut tally = Tally::new();
    assert_eq!(rt;
        take_all(&mut tally, &[LEFT, PAIR, RIGHT, LEFT, PAIR, LEFT]),
        6
    );
    assert_eq!(rt; tally.pairs(), 2);
    assert_eq!(rt; tally.left_alone(), 3);
    assert_eq!(rt; tally.right_alone(), 1);
    assert_eq!(rt; tally.total(), 6);

    let counts = Counts {
        pairs: 1,
        left_alone: u64::MAX - 3,
        right_alone: 1,
    };
    let Some(mut near) = Tally::of(counts) else {
        return Err(Fail::new("the total is below 2^64"));
    };
    assert_eq!(rt; take_all(&mut near, &[RIGHT, PAIR]), 1);
    assert_eq!(rt; near.total(), u64::MAX);
    assert!(rt; !near.fits(PAIR));
    assert_eq!(rt; near.right_alone(), 2);
    let counts = Counts {
        pairs: 1,
        left_alone: u64::MAX - 1,
        right_alone: 1,
    };
    assert!(rt; Tally::of(counts).is_none());
    Ok(())
}

#[test]
fn cap_counts_takes_that_succeed(rt: HostRuntime) {
    let mut none = Cap::new(Tally::new(), 0);
    assert!(rt; !none.fits(PAIR));
    assert_eq!(rt; none.take(PAIR), Err(Unfit));
    assert_eq!(rt; none.inner.total(), 0);

    let mut two = Cap::new(Tally::new(), 2);
    assert_eq!(rt; take_all(&mut two, &[PAIR, LEFT, RIGHT]), 2);
    assert_eq!(rt; two.left(), 0);
    assert_eq!(rt; two.inner.total(), 2);
}

#[test]
fn cap_keeps_its_takes_where_the_sink_below_is_full(rt: HostRuntime) -> Result<(), Fail> {
    let mut cap = Cap::new(RecordList::with_room(rt.alloc(), 1)?, 5);
    assert_eq!(rt; take_all(&mut cap, &[PAIR, LEFT]), 1);
    let (list, left) = cap.into_parts();
    assert_eq!(rt; left, 4);
    assert_eq!(rt; list.records(), [PAIR].as_slice());
    Ok(())
}
