ghost use Rattle.rows.specs.Texts.{row_text};

use crate::reading::Reading;
use std::fmt;

// A row of a log: tables, sources and join are written once for every kind of key.
#[derive(Clone, Copy, PartialEq, Eq, Debug, Default)]
pub struct Row<K> {
    pub key: K,
    pub reading: Reading,
}

impl<K: fmt::Display> fmt::Display for Row<K> {
    ghost output = { row_text K.Display.output };

    fn fmt<W: fmt::Write>(&self, f: &mut fmt::Formatter<W>) -> fmt::Result {
        let key = &self.key;
        let reading = &self.reading;
        write!(f, "{key} {reading}")
    }
}
