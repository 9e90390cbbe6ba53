ghost use Rattle.std.specs.Prelude.{◌≡◌, Some as Shown};
ghost use Rattle.rows.specs.Names.{Named};
ghost use Rattle.hopmap.specs.Names.{verb_name};
ghost use Rattle.hopmap.specs.Verbs.{takes, has};

use crate::settings::{Setting, Switch};
use rows::name::UnknownName;
use std::fmt;
use std::str::FromStr;

// What the program can be asked to do.
#[derive(Clone, Copy, PartialEq, Eq, Debug)]
pub enum Verb {
    Show,
    Grades,
    Table,
}

impl FromStr for Verb {
    type Err = UnknownName;

    ghost from_str_gives = { Named verb_name };

    fn from_str(word: &str) -> Result<Verb, UnknownName> {
        match word {
            "show" => Ok(Verb::Show),
            "grades" => Ok(Verb::Grades),
            "table" => Ok(Verb::Table),
            _ => Err(UnknownName),
        }
    }
}

impl fmt::Display for Verb {
    ghost output = { λ it. Shown (verb_name it) };

    fn fmt<W: fmt::Write>(&self, f: &mut fmt::Formatter<W>) -> fmt::Result {
        let name = match self {
            Verb::Show => "show",
            Verb::Grades => "grades",
            Verb::Table => "table",
        };
        f.write_str(name)
    }
}

impl Verb {
    // Whether the setting may be given.
    pub fn takes(self, setting: Setting) -> bool
        ensures { result ≡ takes self setting }
    {
        match (self, setting) {
            (Verb::Show, Setting::Clock | Setting::Order | Setting::Missing) => true,
            (Verb::Table, Setting::Order | Setting::Missing) => true,
            (Verb::Table, Setting::Kind | Setting::Grade | Setting::Window) => true,
            _ => false,
        }
    }

    // Whether the switch may be given.
    pub fn has(self, switch: Switch) -> bool
        ensures { result ≡ has self switch }
    {
        match (self, switch) {
            (Verb::Table, Switch::MissingEqual) => true,
            (Verb::Show | Verb::Grades, Switch::MissingEqual) => false,
        }
    }
}
