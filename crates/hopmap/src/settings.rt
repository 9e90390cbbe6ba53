ghost use Rattle.std.specs.Prelude.{◌≡◌, Some as Shown};
ghost use Rattle.rows.specs.Names.{Named};
ghost use Rattle.hopmap.specs.Names.{setting_name, setting_takes, switch_name};
ghost use Rattle.hopmap.specs.Settings.{usual, Sets, switched};

use orders::choices::{Choices, Direction, MissingEquals, MissingPlace};
use rows::kind::Kind;
use rows::name::UnknownName;
use std::fmt;
use std::str::FromStr;

// What a word on the command line can set, by the word after it.
#[derive(Clone, Copy, PartialEq, Eq, Debug)]
pub enum Setting {
    Clock,
    Order,
    Missing,
    Kind,
    Grade,
    Window,
}

impl FromStr for Setting {
    type Err = UnknownName;

    ghost from_str_gives = { Named setting_name };

    fn from_str(word: &str) -> Result<Setting, UnknownName> {
        match word {
            "--clock" => Ok(Setting::Clock),
            "--order" => Ok(Setting::Order),
            "--missing" => Ok(Setting::Missing),
            "--kind" => Ok(Setting::Kind),
            "--grade" => Ok(Setting::Grade),
            "--window" => Ok(Setting::Window),
            _ => Err(UnknownName),
        }
    }
}

impl fmt::Display for Setting {
    ghost output = { λ it. Shown (setting_name it) };

    fn fmt<W: fmt::Write>(&self, f: &mut fmt::Formatter<W>) -> fmt::Result {
        let name = match self {
            Setting::Clock => "--clock",
            Setting::Order => "--order",
            Setting::Missing => "--missing",
            Setting::Kind => "--kind",
            Setting::Grade => "--grade",
            Setting::Window => "--window",
        };
        f.write_str(name)
    }
}

impl Setting {
    // What may stand after its name, in words: a text about it, and not its name.
    pub fn takes(self) -> &'static str
        ensures { result.now ≡ setting_takes self }
    {
        match self {
            Setting::Clock => "a whole number of milliseconds from -2147483648 to 2147483647",
            Setting::Order => "up or down",
            Setting::Missing => "first or last",
            Setting::Kind => "inner, left, right or full",
            Setting::Grade => "a whole number from 0 to 255, held within 1 to 5",
            Setting::Window => "a whole number of milliseconds from 0 to 4294967295",
        }
    }
}

// What a word on the command line can switch on.
#[derive(Clone, Copy, PartialEq, Eq, Debug)]
pub enum Switch {
    MissingEqual,
}

impl FromStr for Switch {
    type Err = UnknownName;

    ghost from_str_gives = { Named switch_name };

    fn from_str(word: &str) -> Result<Switch, UnknownName> {
        match word {
            "--missing-equal" => Ok(Switch::MissingEqual),
            _ => Err(UnknownName),
        }
    }
}

// All that can be set and switched on; each command looks at some of it.
#[derive(Clone, Copy)]
pub struct Settings {
    // added to every moment, in milliseconds
    pub clock: i32,
    pub choices: Choices,
    pub kind: Kind,
    // the filters asked for: the worst grade, and the longest delay in milliseconds
    pub grade: Option<u8>,
    pub window: Option<u32>,
}

// What holds where nothing is set.
impl Default for Settings {
    ghost is_default = { λ s. s ≡ usual };

    fn default() -> Settings {
        Settings {
            clock: 0,
            choices: Choices {
                direction: Direction::Up,
                missing: MissingPlace::Last,
                equals: MissingEquals::Nothing,
            },
            kind: Kind::Full,
            grade: None,
            window: None,
        }
    }
}

impl Settings {
    // The settings with one set to what the word says; none where the word does not suit it.
    pub fn with(mut self, setting: Setting, word: &str) -> Option<Settings>
        ensures { Sets self setting word.now result }
    {
        match setting {
            Setting::Clock => self.clock = word.parse().ok()?,
            Setting::Order => self.choices.direction = word.parse().ok()?,
            Setting::Missing => self.choices.missing = word.parse().ok()?,
            Setting::Kind => self.kind = word.parse().ok()?,
            Setting::Grade => self.grade = Some(word.parse().ok()?),
            Setting::Window => self.window = Some(word.parse().ok()?),
        }
        Some(self)
    }

    // The settings with a switch on.
    pub fn switched_on(mut self, switch: Switch) -> Settings
        ensures { result ≡ switched self switch }
    {
        match switch {
            Switch::MissingEqual => self.choices.equals = MissingEquals::Missing,
        }
        self
    }
}
