use super::*;
use rows::reading::Reading;
use std::process::Abort;
use std::test::Fail;

pub(crate) fn row(moment: u32) -> Row<u8> {
    Row {
        key: 7,
        reading: Reading::new(moment, -60, 1),
    }
}

fn check_sizes(
    rt: &impl Abort,
    rows: &[Row<u8>],
    every: usize,
    sizes: &[usize],
    memory: &mut [Row<u8>],
) -> Result<(), Fail> {
    let mut source = Memory::new(rows, every);
    for size in sizes {
        assert_eq!(rt; source.size()?, Some(*size));
        assert_eq!(rt; source.take(memory)?, Some(*size));
    }
    assert_eq!(rt; source.take(memory)?, None);
    Ok(())
}

#[test]
fn sizes(rt: HostRuntime) -> Result<(), Fail> {
    let rows = [row(0), row(1), row(2), row(3), row(4)];
    let mut memory = [row(9); 5];
    check_sizes(&rt, &rows, 0, &[1, 1, 1, 1, 1], &mut memory)?;
    check_sizes(&rt, &rows, 1, &[1, 1, 1, 1, 1], &mut memory)?;
    check_sizes(&rt, &rows, 2, &[2, 2, 1], &mut memory)?;
    check_sizes(&rt, &rows, 5, &[5], &mut memory)?;
    check_sizes(&rt, &rows, 6, &[5], &mut memory)?;
    check_sizes(&rt, &rows, usize::MAX, &[5], &mut memory)?;
    check_sizes(&rt, &[], 0, &[], &mut memory)?;
    check_sizes(&rt, &[], 2, &[], &mut memory)
}

#[test]
fn rows_in_sequence(rt: HostRuntime) -> Result<(), Fail> {
    let rows = [row(0), row(1), row(2)];
    let mut source = Memory::new(&rows, 2);
    let mut memory = [row(7), row(8), row(9)];
    assert_eq!(rt; source.take(&mut memory)?, Some(2));
    assert_eq!(rt; memory, [row(0), row(1), row(9)]);
    assert_eq!(rt; source.take(&mut memory)?, Some(1));
    assert_eq!(rt; memory, [row(2), row(1), row(9)]);
    assert_eq!(rt; source.take(&mut memory)?, None);
    assert_eq!(rt; memory, [row(2), row(1), row(9)]);
    Ok(())
}

#[test]
fn too_short(rt: HostRuntime) -> Result<(), Fail> {
    let rows = [row(0), row(1), row(2)];
    let mut source = Memory::new(&rows, 2);
    let mut memory = [row(9)];
    let refusal = source.take(&mut memory);
    assert_eq!(rt; refusal, Err(TakeRefusal::TooShort));
    assert_eq!(rt; TakeRefusal::TooShort.number(), 10);
    assert_eq!(rt; memory, [row(9)]);
    assert_eq!(rt; source.size()?, Some(2));
    Ok(())
}
