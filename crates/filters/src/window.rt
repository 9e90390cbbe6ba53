ghost use Rattle.std.specs.Prelude.{◌≡◌};
ghost use Rattle.filters.specs.Window.{in_window};
ghost use Rattle.filters.specs.Verdicts.{decided};

use crate::filter::{Filter, Verdict};
use rows::reading::Reading;

// Asks that the frame was heard at the moment it was sent or at most so many milliseconds later.
#[derive(Clone, Copy)]
pub struct WindowFilter {
    width: u32,
}

impl WindowFilter {
    pub fn new(w: u32) -> WindowFilter
        ensures { result ≡ record { width = w } }
    {
        WindowFilter { width: w }
    }

    // Whether right moment minus left moment lies from 0 to the width.
    fn holds(&self, left: u32, right: u32) -> bool
        ensures { result ≡ in_window self.now.width left right }
    {
        right
            .checked_sub(left)
            .is_some_and(|delay| delay <= self.width)
    }
}

impl Filter for WindowFilter {
    ghost says = { λ f left right. decided (in_window f.width left.moment right.moment) };

    fn ask(&self, left: &Reading, right: &Reading) -> Verdict {
        Verdict::from(self.holds(left.moment, right.moment))
    }
}
