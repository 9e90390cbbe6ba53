ghost use Rattle.std.specs.Prelude.{◌≡◌};
ghost use Rattle.rows.specs.Levels.{measured as known};
ghost use Rattle.rows.specs.Texts.{reading_text};

use crate::dash::OrDash;
use std::fmt;

// What a receiver noted of a frame.
#[derive(Clone, Copy, PartialEq, Eq, Debug, Default)]
pub struct Reading {
    // in milliseconds
    pub moment: u32,
    // in dBm, or Reading::NOT_MEASURED
    pub level: i8,
    pub receiver: u16,
}

impl Reading {
    pub const NOT_MEASURED: i8 = -128;

    pub fn new(moment: u32, level: i8, receiver: u16) -> Reading
        ensures { result ≡ record { moment = moment; level = level; receiver = receiver } }
    {
        Reading {
            moment,
            level,
            receiver,
        }
    }

    // The level, none where it was not measured.
    pub fn measured(&self) -> Option<i8>
        ensures { result ≡ known self.now.level }
    {
        (self.level != Reading::NOT_MEASURED).then_some(self.level)
    }
}

impl fmt::Display for Reading {
    ghost output = { reading_text };

    fn fmt<W: fmt::Write>(&self, f: &mut fmt::Formatter<W>) -> fmt::Result {
        let moment = self.moment;
        let level = OrDash(self.measured());
        let receiver = self.receiver;
        write!(f, "moment {moment} level {level} receiver {receiver}")
    }
}
