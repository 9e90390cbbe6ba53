ghost use Rattle.std.specs.Prelude.{◌≡◌, map, string_bytes};
ghost use Rattle.hopmap.specs.Slips.{slip_text};
ghost use Rattle.hopmap.specs.Words.{is_about_call, dashed, start, gone_on, ReadsOption, ReadsValue, and_log, with_log, ReadsWord, asked_by, ReadsWords, ReadsCall};

use crate::settings::{Setting, Settings, Switch};
use crate::verb::Verb;
use std::fmt;

// What the command line asks for.
#[derive(Clone, Copy)]
pub enum Command<'a> {
    Help,
    Show {
        log: &'a str,
        settings: Settings,
    },
    Grades {
        log: &'a str,
    },
    Table {
        sent: &'a str,
        heard: &'a str,
        settings: Settings,
    },
}

// What can be wrong with the words of a call, and the word that is, if it is one.
#[derive(Clone, Copy, PartialEq, Eq, Debug)]
pub enum CallError<'a> {
    NoCommand,
    UnknownCommand(&'a str),
    // the command has no such option
    UnknownOption(Verb, &'a str),
    NoValue(Setting),
    BadValue(Setting, &'a str),
    WrongLogs(Verb),
}

impl CallError<'_> {
    // Whether the call as a whole is wrong, and not one value in it.
    pub fn is_about_call(&self) -> bool
        ensures { result ≡ is_about_call self.now }
    {
        match *self {
            CallError::BadValue(..) => false,
            _ => true,
        }
    }
}

// Whether a word names an option, and no log.
fn is_option(word: &str) -> bool
    ensures { result ≡ dashed word.now }
{
    word.starts_with("--")
}

// The logs named so far, by their words.
#[derive(Clone, Copy)]
enum Logs<'a> {
    Zero,
    One(&'a str),
    Two(&'a str, &'a str),
    More,
}

impl<'a> Logs<'a> {
    // With one log more.
    fn and(self, log: &'a str) -> Logs<'a>
        ensures { result ≡ and_log self.entry log.entry }
    {
        match self {
            Logs::Zero => Logs::One(log),
            Logs::One(first) => Logs::Two(first, log),
            Logs::Two(..) | Logs::More => Logs::More,
        }
    }
}

// What the words read so far say.
#[derive(Clone, Copy)]
struct Progress<'a> {
    settings: Settings,
    // the setting whose value is the next word
    awaited: Option<Setting>,
    logs: Logs<'a>,
}

impl<'a> Progress<'a> {
    fn start() -> Progress<'a>
        ensures { result ≡ start }
    {
        Progress {
            settings: Settings::default(),
            awaited: None,
            logs: Logs::Zero,
        }
    }

    // Goes on with a word that begins with two dashes.
    fn option(&mut self, verb: Verb, word: &'a str) -> Result<(), CallError<'a>>
        ensures { ReadsOption verb self.old word.entry (gone_on self.new result) }
    {
        if let Ok(setting) = word.parse::<Setting>()
            && verb.takes(setting)
        {
            self.awaited = Some(setting);
            return Ok(());
        }
        if let Ok(switch) = word.parse::<Switch>()
            && verb.has(switch)
        {
            self.settings = self.settings.switched_on(switch);
            return Ok(());
        }
        Err(CallError::UnknownOption(verb, word))
    }

    // Goes on with the value of a setting.
    fn value(&mut self, setting: Setting, word: &'a str) -> Result<(), CallError<'a>>
        ensures { ReadsValue self.old setting word.entry (gone_on self.new result) }
    {
        self.settings = self
            .settings
            .with(setting, word)
            .ok_or(CallError::BadValue(setting, word))?;
        self.awaited = None;
        Ok(())
    }

    // Goes on with a log.
    fn log(&mut self, word: &'a str)
        ensures { self.new ≡ with_log self.old word.entry }
    {
        self.logs = self.logs.and(word);
    }

    // Goes on with the next word.
    fn word(&mut self, verb: Verb, word: &'a str) -> Result<(), CallError<'a>>
        ensures { ReadsWord verb self.old word.entry (gone_on self.new result) }
    {
        match self.awaited {
            Some(setting) => self.value(setting, word),
            None if is_option(word) => self.option(verb, word),
            None => {
                self.log(word);
                Ok(())
            }
        }
    }

    // What is asked for, where no word is left.
    fn command(self, verb: Verb) -> Result<Command<'a>, CallError<'a>>
        ensures { result ≡ asked_by self.entry.awaited verb self.entry }
    {
        if let Some(setting) = self.awaited {
            return Err(CallError::NoValue(setting));
        }
        let settings = self.settings;
        match (verb, self.logs) {
            (Verb::Show, Logs::One(log)) => Ok(Command::Show { log, settings }),
            (Verb::Grades, Logs::One(log)) => Ok(Command::Grades { log }),
            (Verb::Table, Logs::Two(sent, heard)) => Ok(Command::Table {
                sent,
                heard,
                settings,
            }),
            _ => Err(CallError::WrongLogs(verb)),
        }
    }
}

// What the words after the command's name ask for.
fn read_words(verb: Verb, words: &[String]) -> Result<Command<'_>, CallError<'_>>
    ensures { ReadsWords verb start (map string_bytes words.now) result }
{
    let mut progress = Progress::start();
    for word in words {
        progress.word(verb, word.as_str())?;
    }
    progress.command(verb)
}

// What the words after the program's own name ask for.
pub fn read(words: &[String]) -> Result<Command<'_>, CallError<'_>>
    ensures { ReadsCall (map string_bytes words.now) result }
{
    let [first, rest @ ..] = words else {
        return Err(CallError::NoCommand);
    };
    let word = first.as_str();
    if word == "--help" {
        return Ok(Command::Help);
    }
    match word.parse::<Verb>() {
        Ok(verb) => read_words(verb, rest),
        Err(_) => Err(CallError::UnknownCommand(word)),
    }
}

impl fmt::Display for CallError<'_> {
    ghost output = { slip_text };

    fn fmt<W: fmt::Write>(&self, f: &mut fmt::Formatter<W>) -> fmt::Result {
        match *self {
            CallError::NoCommand => f.write_str("a command is wanted"),
            CallError::UnknownCommand(word) => write!(f, "there is no command '{word}'"),
            CallError::UnknownOption(verb, word) => write!(f, "{verb} has no option '{word}'"),
            CallError::NoValue(setting) => {
                let takes = setting.takes();
                write!(f, "{setting} takes {takes}")
            }
            CallError::BadValue(setting, word) => {
                let takes = setting.takes();
                write!(f, "{setting} takes {takes}, not '{word}'")
            }
            CallError::WrongLogs(verb) => {
                let logs = match verb {
                    Verb::Show | Verb::Grades => "one log",
                    Verb::Table => "two logs, the sent one and the heard one",
                };
                write!(f, "{verb} takes {logs}")
            }
        }
    }
}
