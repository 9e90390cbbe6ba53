// What a turn answers where it is not refused.
#[derive(Clone, Copy, PartialEq, Eq, Debug)]
pub enum Answer {
    // a turn was made, and more are to come
    More,
    // the next due record does not fit the sink, and stays due
    Waiting,
    // both logs are passed, and every record was handed over
    Finished,
}

#[derive(Clone, Copy, PartialEq, Eq, Debug)]
pub enum State {
    Working,
    Waiting,
    Finished,
    Stopped,
}

// How far a join has come.
#[derive(Clone, Copy, PartialEq, Eq, Debug)]
pub struct Report {
    pub state: State,
    pub turns: u32,
    pub rows_passed: u32,
    pub runs_passed: u32,
    pub left_read: u32,
    pub right_read: u32,
    pub handed: u64,
}
