use std::cmp::Ordering;
use std::fmt;

// An answer as one sign: before, same or after.
#[derive(Clone, Copy)]
pub struct Answer(pub Ordering);

impl fmt::Display for Answer {
    fn fmt<W: fmt::Write>(&self, f: &mut fmt::Formatter<W>) -> fmt::Result {
        f.write_str(match self.0 {
            Ordering::Less => "<",
            Ordering::Equal => "=",
            Ordering::Greater => ">",
        })
    }
}
