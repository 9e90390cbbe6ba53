// No value of the type has the name.
#[derive(Clone, Copy, PartialEq, Eq, Debug)]
pub struct UnknownName;
