ghost use Rattle.std.specs.Prelude.{◌≡◌, ok_or};
ghost use Rattle.rows.specs.declared.kind.UnknownKind.{UnknownKind as Unknown};
ghost use Rattle.rows.specs.Kinds.{numbered, kind_name};
ghost use Rattle.rows.specs.Names.{Named};
ghost use Rattle.rows.specs.Sides.{streamed_side, buffered_side, left_of, right_of, is_outer, is_full};
ghost use Rattle.rows.specs.Texts.{kind_text, side_text};

use crate::name::UnknownName;
use std::fmt;
use std::str::FromStr;

// Which rows without a partner a join lists: none, the left ones, the right ones, or both.
#[derive(Clone, Copy, PartialEq, Eq, Debug)]
pub enum Kind {
    Inner,
    Left,
    Right,
    Full,
}

// The two logs of a join.
#[derive(Clone, Copy, PartialEq, Eq, Debug)]
pub enum Side {
    Left,
    Right,
}

// The number is no kind's.
#[derive(Clone, Copy, PartialEq, Eq, Debug)]
pub struct UnknownKind;

// A kind has a number and a name, each read by an impl of its trait.
impl TryFrom<u8> for Kind {
    type Error = UnknownKind;

    ghost try_from_gives = { λ number answer. answer ≡ ok_or (numbered number) (record {}) };

    fn try_from(number: u8) -> Result<Self, UnknownKind> {
        match number {
            0 => Ok(Kind::Inner),
            1 => Ok(Kind::Left),
            2 => Ok(Kind::Right),
            3 => Ok(Kind::Full),
            _ => Err(UnknownKind),
        }
    }
}

impl Kind {
    // The side that is streamed: the left one, in a right join the right one.
    pub fn streamed_side(self) -> Side
        ensures { result ≡ streamed_side self }
    {
        self.oriented(Side::Left, Side::Right).0
    }

    // The other side.
    pub fn buffered_side(self) -> Side
        ensures { result ≡ buffered_side self }
    {
        self.oriented(Side::Left, Side::Right).1
    }

    // What the left and the right side have, of what the streamed and the buffered side have; and the other way round.
    pub fn oriented<T>(self, streamed: T, buffered: T) -> (T, T)
        ensures left { result.0 ≡ left_of self streamed buffered }
        ensures right { result.1 ≡ right_of self streamed buffered }
    {
        match self {
            Kind::Inner | Kind::Left | Kind::Full => (streamed, buffered),
            Kind::Right => (buffered, streamed),
        }
    }

    // Whether a streamed row without a partner is listed.
    pub fn lists_streamed(self) -> bool
        ensures { result ≡ is_outer self }
    {
        self != Kind::Inner
    }

    // Whether a buffered row without a partner is listed.
    pub fn lists_buffered(self) -> bool
        ensures { result ≡ is_full self }
    {
        self == Kind::Full
    }
}

impl FromStr for Kind {
    type Err = UnknownName;

    ghost from_str_gives = { Named kind_name };

    fn from_str(name: &str) -> Result<Self, UnknownName> {
        match name {
            "inner" => Ok(Kind::Inner),
            "left" => Ok(Kind::Left),
            "right" => Ok(Kind::Right),
            "full" => Ok(Kind::Full),
            _ => Err(UnknownName),
        }
    }
}

impl fmt::Display for Kind {
    ghost output = { kind_text };

    fn fmt<W: fmt::Write>(&self, f: &mut fmt::Formatter<W>) -> fmt::Result {
        let name = match self {
            Kind::Inner => "inner",
            Kind::Left => "left",
            Kind::Right => "right",
            Kind::Full => "full",
        };
        f.write_str(name)
    }
}

// The left log is what was sent, the right log what was heard.
impl fmt::Display for Side {
    ghost output = { side_text };

    fn fmt<W: fmt::Write>(&self, f: &mut fmt::Formatter<W>) -> fmt::Result {
        let name = match self {
            Side::Left => "sent",
            Side::Right => "heard",
        };
        f.write_str(name)
    }
}
