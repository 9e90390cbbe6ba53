ghost use Rattle.std.specs.Prelude.{◌≡◌, Some as Present};
ghost use Rattle.rows.specs.Names.{Named};
ghost use Rattle.orders.specs.Choices.{directed as turn_by, missing_against, two_missing};
ghost use Rattle.orders.specs.Names.{direction_name, missing_name, equals_name};

use rows::name::UnknownName;
use std::cmp::Ordering;
use std::fmt;
use std::str::FromStr;

// Which way a column runs.
#[derive(Clone, Copy, PartialEq, Eq, Debug)]
pub enum Direction {
    Up,
    Down,
}

// Each choice names itself: a trait takes an impl for each type.

impl fmt::Display for Direction {
    ghost output = { λ it. Present (direction_name it) };

    fn fmt<W: fmt::Write>(&self, f: &mut fmt::Formatter<W>) -> fmt::Result {
        let name = match self {
            Direction::Up => "up",
            Direction::Down => "down",
        };
        f.write_str(name)
    }
}

impl FromStr for Direction {
    type Err = UnknownName;

    ghost from_str_gives = { Named direction_name };

    fn from_str(name: &str) -> Result<Direction, UnknownName> {
        match name {
            "up" => Ok(Direction::Up),
            "down" => Ok(Direction::Down),
            _ => Err(UnknownName),
        }
    }
}

// Where missing values stand, whichever way the column runs.
#[derive(Clone, Copy, PartialEq, Eq, Debug)]
pub enum MissingPlace {
    First,
    Last,
}

impl fmt::Display for MissingPlace {
    ghost output = { λ it. Present (missing_name it) };

    fn fmt<W: fmt::Write>(&self, f: &mut fmt::Formatter<W>) -> fmt::Result {
        let name = match self {
            MissingPlace::First => "first",
            MissingPlace::Last => "last",
        };
        f.write_str(name)
    }
}

impl FromStr for MissingPlace {
    type Err = UnknownName;

    ghost from_str_gives = { Named missing_name };

    fn from_str(name: &str) -> Result<MissingPlace, UnknownName> {
        match name {
            "first" => Ok(MissingPlace::First),
            "last" => Ok(MissingPlace::Last),
            _ => Err(UnknownName),
        }
    }
}

// What a missing value of one log equals in the other: a missing one, or nothing at all.
#[derive(Clone, Copy, PartialEq, Eq, Debug)]
pub enum MissingEquals {
    Missing,
    Nothing,
}

impl fmt::Display for MissingEquals {
    ghost output = { λ it. Present (equals_name it) };

    fn fmt<W: fmt::Write>(&self, f: &mut fmt::Formatter<W>) -> fmt::Result {
        let name = match self {
            MissingEquals::Missing => "missing",
            MissingEquals::Nothing => "nothing",
        };
        f.write_str(name)
    }
}

// How one column of a key compares.
#[derive(Clone, Copy, PartialEq, Eq, Debug)]
pub struct Choices {
    pub direction: Direction,
    pub missing: MissingPlace,
    pub equals: MissingEquals,
}

impl Choices {
    pub fn new(direction: Direction, missing: MissingPlace, equals: MissingEquals) -> Choices
        ensures { result ≡ record { direction = direction; missing = missing; equals = equals } }
    {
        Choices {
            direction,
            missing,
            equals,
        }
    }

    // What a column answers for two values that compare so running up.
    pub(crate) fn directed(&self, up: Ordering) -> Ordering
        ensures { result ≡ turn_by self.now.direction up }
    {
        match self.direction {
            Direction::Up => up,
            Direction::Down => up.reverse(),
        }
    }

    // A missing value against one that is there.
    pub(crate) fn missing_against(&self) -> Ordering
        ensures { result ≡ missing_against self.now.missing }
    {
        match self.missing {
            MissingPlace::First => Ordering::Less,
            MissingPlace::Last => Ordering::Greater,
        }
    }

    // Two missing values across. It decides otherwise than the function above, and is like it in shape alone.
    pub(crate) fn two_missing(&self) -> Ordering
        ensures { result ≡ two_missing self.now.equals }
    {
        match self.equals {
            MissingEquals::Missing => Ordering::Equal,
            MissingEquals::Nothing => Ordering::Less,
        }
    }
}
