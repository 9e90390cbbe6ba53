use crate::both::BothFilters;
use crate::filter::{Filter, Verdict};
use crate::grade::{GradeFilter, grade};
use crate::window::WindowFilter;
use rows::reading::Reading;

fn heard(moment: u32, level: i8) -> Reading {
    Reading::new(moment, level, 1)
}

#[test]
fn grades_start_at_their_levels(rt: HostRuntime) {
    assert_eq!(rt; grade(127), Some(1));
    assert_eq!(rt; grade(-60), Some(1));
    assert_eq!(rt; grade(-61), Some(2));
    assert_eq!(rt; grade(-72), Some(2));
    assert_eq!(rt; grade(-73), Some(3));
    assert_eq!(rt; grade(-84), Some(3));
    assert_eq!(rt; grade(-85), Some(4));
    assert_eq!(rt; grade(-96), Some(4));
    assert_eq!(rt; grade(-97), Some(5));
    assert_eq!(rt; grade(-127), Some(5));
    assert_eq!(rt; grade(-128), None);
}

fn ask_grade(g: u8, level: i8) -> Verdict {
    GradeFilter::new(g).ask(&heard(1000, 0), &heard(1000, level))
}

#[test]
fn grade_filter_takes_grades_up_to_its_own(rt: HostRuntime) {
    assert_eq!(rt; ask_grade(2, -72), Verdict::Yes);
    assert_eq!(rt; ask_grade(2, -73), Verdict::No);
    assert_eq!(rt; ask_grade(2, -128), Verdict::Unknown);
    // 0 is held at 1, and 255 at 5
    assert_eq!(rt; ask_grade(0, -60), Verdict::Yes);
    assert_eq!(rt; ask_grade(0, -61), Verdict::No);
    assert_eq!(rt; ask_grade(255, -127), Verdict::Yes);
}

fn ask_window(w: u32, left: u32, right: u32) -> Verdict {
    WindowFilter::new(w).ask(&heard(left, -70), &heard(right, -70))
}

#[test]
fn window_runs_from_0_to_its_width(rt: HostRuntime) {
    assert_eq!(rt; ask_window(100, 2000, 2000), Verdict::Yes);
    assert_eq!(rt; ask_window(100, 2000, 2100), Verdict::Yes);
    assert_eq!(rt; ask_window(100, 2000, 2101), Verdict::No);
    assert_eq!(rt; ask_window(100, 2000, 1999), Verdict::No);
    assert_eq!(rt; ask_window(0, u32::MAX, u32::MAX), Verdict::Yes);
    assert_eq!(rt; ask_window(u32::MAX, 0, u32::MAX), Verdict::Yes);
    assert_eq!(rt; ask_window(u32::MAX - 1, 0, u32::MAX), Verdict::No);
    assert_eq!(rt; ask_window(u32::MAX, u32::MAX, 0), Verdict::No);
}

#[test]
fn and_is_that_of_sql(rt: HostRuntime) {
    assert_eq!(rt; Verdict::Yes.and(Verdict::Yes), Verdict::Yes);
    assert_eq!(rt; Verdict::Yes.and(Verdict::No), Verdict::No);
    assert_eq!(rt; Verdict::Yes.and(Verdict::Unknown), Verdict::Unknown);
    assert_eq!(rt; Verdict::No.and(Verdict::Yes), Verdict::No);
    assert_eq!(rt; Verdict::No.and(Verdict::No), Verdict::No);
    assert_eq!(rt; Verdict::No.and(Verdict::Unknown), Verdict::No);
    assert_eq!(rt; Verdict::Unknown.and(Verdict::Yes), Verdict::Unknown);
    assert_eq!(rt; Verdict::Unknown.and(Verdict::No), Verdict::No);
    assert_eq!(rt; Verdict::Unknown.and(Verdict::Unknown), Verdict::Unknown);
}

#[test]
fn both_filters_ask_for_both(rt: HostRuntime) {
    let both = BothFilters {
        first: GradeFilter::new(3),
        second: WindowFilter::new(100),
    };
    let sent = heard(2000, -70);
    assert_eq!(rt; both.ask(&sent, &heard(2010, -60)), Verdict::Yes);
    assert_eq!(rt; both.ask(&sent, &heard(2040, -95)), Verdict::No);
    assert_eq!(rt; both.ask(&sent, &heard(2010, -128)), Verdict::Unknown);
    assert_eq!(rt; both.ask(&sent, &heard(1999, -128)), Verdict::No);
    assert!(rt; !both.ask(&sent, &heard(2010, -128)).is_yes());
    assert!(rt; both.ask(&sent, &heard(2100, -84)).is_yes());
}
