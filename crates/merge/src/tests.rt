// The examples of specs/Examples, run over the nested loops.
ghost use Rattle.std.specs.Prelude.{if◌then◌else◌, nat_lt};
ghost use Rattle.filters.specs.declared.filter.Verdict.TheVariants.{Yes, No};
ghost use Rattle.merge.specs.Numbers.{numbers_within, numbers_across};
ghost use Rattle.merge.specs.NumberLaws.{numbers_lawful};

use crate::nested_loops::joined_table;
use filters::filter::{Filter, Verdict};
use rows::kind::Kind;
use rows::order::KeyOrder;
use rows::reading::Reading;
use rows::record::Record;
use rows::row::Row;
use std::cmp::Ordering;
use std::process::Abort;
use std::test::Fail;

// Numbers that may be missing run up, missing first; across, missing equals nothing.
#[derive(Clone, Copy)]
struct Numbers;

impl KeyOrder for Numbers {
    type Key = Option<u8>;

    ghost within = { λ _. numbers_within };

    ghost across = { λ _. numbers_across };

    ghost lawful = { λ _. numbers_lawful };

    fn compare_within(&self, a: &Option<u8>, b: &Option<u8>) -> Ordering {
        a.cmp(b)
    }

    fn compare_across(&self, streamed: &Option<u8>, buffered: &Option<u8>) -> Ordering {
        match (streamed, buffered) {
            (None, _) => Ordering::Less,
            (Some(_), None) => Ordering::Greater,
            (Some(x), Some(y)) => x.cmp(y),
        }
    }
}

// Yes if the right moment is not before the left one.
#[derive(Clone, Copy)]
struct NotBefore;

impl Filter for NotBefore {
    ghost says = { λ _ l r. (if nat_lt r.moment l.moment then No else Yes) };

    fn ask(&self, left: &Reading, right: &Reading) -> Verdict {
        if right.moment < left.moment {
            Verdict::No
        } else {
            Verdict::Yes
        }
    }
}

fn row(key: Option<u8>, moment: u32) -> Row<Option<u8>> {
    Row {
        key,
        reading: Reading::new(moment, 0, 0),
    }
}

fn joins_to(
    rt: &(impl Abort + AllocGlobal),
    kind: Kind,
    filter: Option<NotBefore>,
    left: &[Row<Option<u8>>],
    right: &[Row<Option<u8>>],
    expected: &[Record],
) -> Result<(), Fail> {
    let table = joined_table(rt.alloc(), kind, &Numbers, &filter, left, right)?;
    assert!(rt; table.as_slice() == expected);
    Ok(())
}

#[test]
fn two_missing_keys_match_nothing(rt: HostRuntime) -> Result<(), Fail> {
    let missing = [row(None, 0)];
    joins_to(
        &rt,
        Kind::Full,
        None,
        &missing,
        &missing,
        &[Record::LeftAlone(0), Record::RightAlone(0)],
    )
}

#[test]
fn a_row_against_a_run_of_three(rt: HostRuntime) -> Result<(), Fail> {
    let run = [row(Some(5), 10), row(Some(5), 20), row(Some(5), 30)];
    joins_to(
        &rt,
        Kind::Left,
        None,
        &[row(Some(5), 0)],
        &run,
        &[Record::Pair(0, 0), Record::Pair(0, 1), Record::Pair(0, 2)],
    )?;
    joins_to(
        &rt,
        Kind::Left,
        Some(NotBefore),
        &[row(Some(5), 15)],
        &run,
        &[Record::Pair(0, 1), Record::Pair(0, 2)],
    )?;
    joins_to(
        &rt,
        Kind::Left,
        Some(NotBefore),
        &[row(Some(5), 99)],
        &run,
        &[Record::LeftAlone(0)],
    )?;
    joins_to(
        &rt,
        Kind::Full,
        Some(NotBefore),
        &[row(Some(5), 99)],
        &run,
        &[
            Record::LeftAlone(0),
            Record::RightAlone(0),
            Record::RightAlone(1),
            Record::RightAlone(2),
        ],
    )
}

#[test]
fn an_empty_log_on_either_side(rt: HostRuntime) -> Result<(), Fail> {
    joins_to(
        &rt,
        Kind::Full,
        None,
        &[row(Some(5), 0)],
        &[],
        &[Record::LeftAlone(0)],
    )?;
    joins_to(
        &rt,
        Kind::Full,
        None,
        &[],
        &[row(Some(5), 0)],
        &[Record::RightAlone(0)],
    )?;
    joins_to(&rt, Kind::Full, None, &[], &[], &[])
}

#[test]
fn all_four_kinds(rt: HostRuntime) -> Result<(), Fail> {
    let left = [
        row(None, 0),
        row(Some(2), 15),
        row(Some(2), 99),
        row(Some(7), 0),
    ];
    let right = [
        row(None, 0),
        row(Some(2), 10),
        row(Some(2), 20),
        row(Some(3), 0),
    ];
    joins_to(
        &rt,
        Kind::Inner,
        Some(NotBefore),
        &left,
        &right,
        &[Record::Pair(1, 2)],
    )?;
    joins_to(
        &rt,
        Kind::Left,
        Some(NotBefore),
        &left,
        &right,
        &[
            Record::Pair(1, 2),
            Record::LeftAlone(0),
            Record::LeftAlone(2),
            Record::LeftAlone(3),
        ],
    )?;
    joins_to(
        &rt,
        Kind::Right,
        Some(NotBefore),
        &left,
        &right,
        &[
            Record::Pair(1, 2),
            Record::RightAlone(0),
            Record::RightAlone(1),
            Record::RightAlone(3),
        ],
    )?;
    joins_to(
        &rt,
        Kind::Full,
        Some(NotBefore),
        &left,
        &right,
        &[
            Record::Pair(1, 2),
            Record::LeftAlone(0),
            Record::LeftAlone(2),
            Record::LeftAlone(3),
            Record::RightAlone(0),
            Record::RightAlone(1),
            Record::RightAlone(3),
        ],
    )
}
