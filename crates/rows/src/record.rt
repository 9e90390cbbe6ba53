ghost use Rattle.std.specs.Prelude.{◌≡◌};
ghost use Rattle.rows.specs.Sides.{alone_on, flipped};
ghost use Rattle.rows.specs.Texts.{record_text};

use crate::kind::Side;
use std::fmt;

// A record of the joined table: the places of a left and a right row, or of one of them alone. A place counts the rows of
// one side from 0 through all its batches. No value has neither place.
#[derive(Clone, Copy, PartialEq, Eq, Debug)]
pub enum Record {
    Pair(u32, u32),
    LeftAlone(u32),
    RightAlone(u32),
}

impl Record {
    // The record of a side's row without a partner.
    pub fn alone(side: Side, place: u32) -> Record
        ensures { result ≡ alone_on side place }
    {
        match side {
            Side::Left => Record::LeftAlone(place),
            Side::Right => Record::RightAlone(place),
        }
    }

    // The record with its sides swapped.
    pub fn flipped(self) -> Record
        ensures { result ≡ flipped self }
    {
        match self {
            Record::Pair(left, right) => Record::Pair(right, left),
            Record::LeftAlone(place) => Record::RightAlone(place),
            Record::RightAlone(place) => Record::LeftAlone(place),
        }
    }
}

impl fmt::Display for Record {
    ghost output = { record_text };

    fn fmt<W: fmt::Write>(&self, f: &mut fmt::Formatter<W>) -> fmt::Result {
        match self {
            Record::Pair(left, right) => write!(f, "hop {left} {right}"),
            Record::LeftAlone(left) => write!(f, "lost {left} -"),
            Record::RightAlone(right) => write!(f, "stranger - {right}"),
        }
    }
}
