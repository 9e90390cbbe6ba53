ghost use Rattle.std.specs.Prelude.{◌≡◌, ◌+◌, ◌≤◌, false};

// The streamed batch that is held: the place of its first row, how many rows it has, and the next of them.
#[derive(Clone, Copy)]
pub struct StreamedBatch {
    pub(crate) first: u32,
    pub(crate) rows: usize,
    pub(crate) at: usize,
    pub(crate) ended: bool,
    ghost within: { at ≤ rows },
    ghost places: { first + rows ≤ 16777215 },
}

#[derive(Clone, Copy)]
pub struct Counts {
    pub(crate) turns: u32,
    pub(crate) rows: u32,
    pub(crate) runs: u32,
    pub(crate) handed: u64,
    ghost sum: { turns ≡ rows + runs },
}

impl StreamedBatch {
    // A batch of so many rows, the first of which has a place; none of them is passed.
    pub(crate) fn new(first: u32, rows: usize) -> StreamedBatch
        requires { first + rows ≤ 16777215 }
        ensures rows { (result.first ≡ first) × (result.rows ≡ rows) }
        ensures unpassed { (result.at ≡ 0) × (result.ended ≡ false) }
    {
        StreamedBatch {
            first,
            rows,
            at: 0,
            ended: false,
        }
    }

    // How many rows of the side were read.
    pub(crate) fn read(&self) -> u32
        ensures { result ≡ self.now.first + self.now.rows }
    {
        self.first + self.rows as u32
    }
}
