ghost use Rattle.std.specs.Prelude.{[], Err};
ghost use Rattle.sources.specs.declared.fault.SourceFault.TheVariants.{RunsOut};

use super::*;
use crate::memory::Memory;
use crate::memory::tests::row;
use std::test::Fail;

#[test]
fn both_ends(rt: HostRuntime) {
    let cases = [
        (0, i32::MIN, 0),
        (0, i32::MAX, 2_147_483_647),
        (0, -1, 0),
        (5, -5, 0),
        (2_147_483_648, i32::MIN, 0),
        (2_147_483_648, i32::MAX, u32::MAX),
        (4_294_967_290, 5, u32::MAX),
        (u32::MAX, 1, u32::MAX),
        (u32::MAX, i32::MAX, u32::MAX),
        (u32::MAX, i32::MIN, 2_147_483_647),
    ];
    for (moment, offset, after) in cases {
        assert_eq!(rt; moved(moment, offset), after);
    }
}

#[test]
fn moves_what_was_written(rt: HostRuntime) -> Result<(), Fail> {
    let rows = [row(0), row(1000), row(2000)];
    let mut clock = Clock::new(Memory::new(&rows, 2), -500);
    let mut memory = [row(7), row(8), row(9)];
    assert_eq!(rt; clock.size()?, Some(2));
    assert_eq!(rt; clock.take(&mut memory)?, Some(2));
    assert_eq!(rt; memory, [row(0), row(500), row(9)]);
    let mut inner = clock.into_inner();
    assert_eq!(rt; inner.take(&mut memory)?, Some(1));
    assert_eq!(rt; memory, [row(2000), row(500), row(9)]);
    Ok(())
}

#[test]
fn passes_refusals(rt: HostRuntime) -> Result<(), Fail> {
    let rows = [row(0), row(1000)];
    let mut clock = Clock::new(Memory::new(&rows, 2), 1);
    let mut memory = [row(9)];
    assert_eq!(rt; clock.take(&mut memory), Err(TakeRefusal::TooShort));
    assert_eq!(rt; memory, [row(9)]);
    assert_eq!(rt; clock.size()?, Some(2));
    Ok(())
}

#[test]
fn closes_as_the_source_below(rt: HostRuntime) {
    let mut clock = Clock::new(Spoilt, 1);
    let mut memory = [row(9)];
    assert_eq!(rt; clock.size(), Err(SourceFault::RunsOut(3)));
    assert_eq!(rt;
        clock.take(&mut memory),
        Err(TakeRefusal::Fault(SourceFault::RunsOut(3)))
    );
    assert_eq!(rt; memory, [row(9)]);
}

// A source with nothing but a fault.
#[derive(Drop)]
struct Spoilt;

impl Source for Spoilt {
    type Key = u8;

    ghost batches = { λ _. [] };

    ghost closing = { λ _. Err (RunsOut 3) };

    fn size(&self) -> Result<Option<usize>, SourceFault> {
        Err(SourceFault::RunsOut(3))
    }

    fn take(&mut self, _memory: &mut [Row<u8>]) -> Result<Option<usize>, TakeRefusal> {
        Err(TakeRefusal::Fault(SourceFault::RunsOut(3)))
    }
}
