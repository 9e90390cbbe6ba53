ghost use Rattle.std.specs.Prelude.{◌≡◌, ◌≤◌, IfSome};
ghost use Rattle.filters.specs.Grades.{graded, at_most, held};

use crate::filter::{Filter, Verdict};
use rows::reading::Reading;

// the lowest levels of grades 1 to 4, in dBm; grade 5 is lower
const START_1: i8 = -60;

const START_2: i8 = -72;

const START_3: i8 = -84;

const START_4: i8 = -96;

const BEST: u8 = 1;

const WORST: u8 = 5;

// The grade of a level, from 1, the best, to 5; none where the level is not measured.
pub fn grade(level: i8) -> Option<u8>
    ensures value { result ≡ graded level }
    ensures range { IfSome result (λ g. (1 ≤ g) × (g ≤ 5)) }
{
    // guards, which take no longer than comparisons; half-open ranges take twice as long
    match level {
        Reading::NOT_MEASURED => None,
        _ if level >= START_1 => Some(1),
        _ if level >= START_2 => Some(2),
        _ if level >= START_3 => Some(3),
        _ if level >= START_4 => Some(4),
        _ => Some(5),
    }
}

// Asks that the frame was heard at a level of this grade or a better one.
#[derive(Clone, Copy)]
pub struct GradeFilter {
    worst: u8,
}

impl GradeFilter {
    // g is held within 1 to 5.
    pub fn new(g: u8) -> GradeFilter
        ensures { result ≡ record { worst = held g } }
    {
        GradeFilter {
            worst: g.clamp(BEST, WORST),
        }
    }
}

impl Filter for GradeFilter {
    ghost says = { λ f left right. at_most f.worst (graded right.level) };

    fn ask(&self, _left: &Reading, right: &Reading) -> Verdict {
        match grade(right.level) {
            Some(g) => Verdict::from(g <= self.worst),
            None => Verdict::Unknown,
        }
    }
}
