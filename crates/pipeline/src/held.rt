ghost use Rattle.std.specs.Prelude.{◌≡◌, ◌+◌, ◌≤◌, length, take};
ghost use Rattle.pipeline.specs.Batches.{rows_of};

use crate::batch::BufferedBatch;

// The held batches lie in the table one after the other from its start. The run goes from row `start` to row `end` of the
// table; `base` is the place of the table's first row. An array and a count: the
// type is Copy, which an `ArrayVec` is not.
#[derive(Clone, Copy)]
pub struct BufferedData {
    pub batches: [BufferedBatch; 64],
    pub count: usize,
    pub base: u32,
    pub held: usize,
    pub start: usize,
    pub end: usize,
    pub matched: bool,
    ghost room: { length batches ≡ 64 },
    ghost few: { count ≤ 64 },
    ghost run: { start ≤ end },
    ghost within: { end ≤ held },
    ghost places: { base + held ≤ 16777215 },
    // the rows of the batches held are all the rows held
    ghost together: { rows_of (take count batches) ≡ held },
}
