ghost use Rattle.std.specs.Prelude.{◌≡◌};
ghost use Rattle.hopmap.specs.Wanted.{asked, wanted_of};

use filters::both::BothFilters;
use filters::filter::{Filter, Verdict};
use filters::grade::GradeFilter;
use filters::window::WindowFilter;
use rows::reading::Reading;

// The filter that the settings ask for: an enum, since no function hands out a dyn.
#[derive(Clone, Copy)]
pub enum Wanted {
    Grade(GradeFilter),
    Window(WindowFilter),
    Both(BothFilters<GradeFilter, WindowFilter>),
}

impl Filter for Wanted {
    ghost says = { asked };

    fn ask(&self, left: &Reading, right: &Reading) -> Verdict {
        match self {
            Wanted::Grade(grade) => grade.ask(left, right),
            Wanted::Window(window) => window.ask(left, right),
            Wanted::Both(both) => both.ask(left, right),
        }
    }
}

// The filter of a grade and a window, none where neither is given.
pub fn filter_for(grade: Option<u8>, window: Option<u32>) -> Option<Wanted>
    ensures { result ≡ wanted_of grade window }
{
    match (grade, window) {
        (None, None) => None,
        (Some(g), None) => Some(Wanted::Grade(GradeFilter::new(g))),
        (None, Some(w)) => Some(Wanted::Window(WindowFilter::new(w))),
        (Some(g), Some(w)) => Some(Wanted::Both(BothFilters {
            first: GradeFilter::new(g),
            second: WindowFilter::new(w),
        })),
    }
}
