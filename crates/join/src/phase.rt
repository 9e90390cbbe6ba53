use machine::fault::JoinFault;

// Where a streamed row's pairs go on: a row of a held batch, and how many rows of the run are left to pair.
#[derive(Clone, Copy, PartialEq, Eq, Debug)]
pub struct Pairs {
    pub(crate) batch: usize,
    pub(crate) row: u32,
    pub(crate) left: usize,
}

// What comes next. `first` says that the load is the first call's, which makes no turn before its loads.
#[derive(Clone, Copy, PartialEq, Eq, Debug)]
pub enum Phase {
    // the next streamed batch is loaded
    Fetching { first: bool },
    // the next run begins
    Seeding { first: bool },
    // the run goes on over as many rows and batches as it has
    Extending { first: bool },
    // the loads are done: both sides may have ended
    Closing { first: bool },
    // the streamed row is compared with the run
    Turning,
    // the streamed row is paired with the run
    Pairing(Pairs),
    // the streamed row is passed
    Passing,
    Done,
    Stopped(JoinFault),
}
