ghost use Rattle.rows.specs.Texts.{or_dash};

use std::fmt;

// Shows a value, or a dash where there is none.
#[derive(Clone, Copy)]
pub(crate) struct OrDash<T>(pub Option<T>);

impl<T: fmt::Display> fmt::Display for OrDash<T> {
    ghost output = { λ o. or_dash T.Display.output o.0 };

    fn fmt<W: fmt::Write>(&self, f: &mut fmt::Formatter<W>) -> fmt::Result {
        match &self.0 {
            Some(x) => x.fmt(f),
            None => f.write_str("-"),
        }
    }
}
