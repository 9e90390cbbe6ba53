// What was asked is not possible now; nothing has changed.
#[derive(Clone, Copy, PartialEq, Eq, Debug)]
pub struct Refused;
