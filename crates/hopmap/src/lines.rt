ghost use Rattle.std.specs.Prelude.{◌≡◌};
ghost use Rattle.hopmap.specs.Lines.{fault_words, batch_text, row_text, fault_text, closing_text, summary_text, sequence_text, grade_text, refusal_text};

use crate::table::TableRefusal;
use crate::totals::Totals;
use rows::row::Row;
use sources::fault::SourceFault;
use sources::source::Closing;
use std::fmt;
use std::fmt::Display;

// The line before the rows of a batch.
#[derive(Clone, Copy)]
pub struct BatchLine {
    pub number: u64,
    pub rows: usize,
}

impl fmt::Display for BatchLine {
    ghost output = { batch_text };

    fn fmt<W: fmt::Write>(&self, f: &mut fmt::Formatter<W>) -> fmt::Result {
        let number = self.number;
        let rows = self.rows;
        write!(f, "batch {number}, {rows} rows")
    }
}

// The line of a row.
#[derive(Clone, Copy)]
pub struct RowLine<K> {
    pub place: u64,
    pub row: Row<K>,
}

impl<K: fmt::Display> fmt::Display for RowLine<K> {
    ghost output = { λ line. row_text K.Display.output line };

    fn fmt<W: fmt::Write>(&self, f: &mut fmt::Formatter<W>) -> fmt::Result {
        let place = self.place;
        let row = &self.row;
        write!(f, "row {place} {row}")
    }
}

// What is wrong with a source, in words.
// A text about a fault, and not its name.
pub fn words_of(fault: SourceFault) -> &'static str
    ensures { result.now ≡ fault_words fault }
{
    match fault {
        SourceFault::NoHeader(_) =>
            "the first byte is absent or not 00, or the key kind is another",
        SourceFault::BadCommand(_) => "unknown command, a later 00, or a byte after 03",
        SourceFault::RunsOut(_) => "the bytes run out",
        SourceFault::BadPresence(_) => "bad presence",
    }
}

// A source's fault with its values and its meaning in words; SourceFault itself is another crate's.
#[derive(Clone, Copy)]
pub struct FaultText(pub SourceFault);

impl fmt::Display for FaultText {
    ghost output = { λ text. fault_text text.0 };

    fn fmt<W: fmt::Write>(&self, f: &mut fmt::Formatter<W>) -> fmt::Result {
        let number = self.0.number();
        let layer = self.0.layer();
        let place = self.0.place();
        let words = words_of(self.0);
        write!(f, "fault {number} layer {layer} place {place}: {words}")
    }
}

// How a source closes; Closing itself is std's Result.
#[derive(Clone, Copy)]
pub struct ClosingText(pub Closing);

impl fmt::Display for ClosingText {
    ghost output = { λ text. closing_text text.0 };

    fn fmt<W: fmt::Write>(&self, f: &mut fmt::Formatter<W>) -> fmt::Result {
        match self.0 {
            Ok(()) => f.write_str("the end"),
            Err(fault) => FaultText(fault).fmt(f),
        }
    }
}

// How much came of a source, and how it closed.
#[derive(Clone, Copy)]
pub struct Summary {
    pub totals: Totals,
    pub closing: Closing,
}

impl fmt::Display for Summary {
    ghost output = { summary_text };

    fn fmt<W: fmt::Write>(&self, f: &mut fmt::Formatter<W>) -> fmt::Result {
        let batches = self.totals.batches;
        let rows = self.totals.rows;
        let closing = ClosingText(self.closing);
        write!(f, "{batches} batches, {rows} rows, then {closing}")
    }
}

// Whether rows are in key order: the first place whose row is before its predecessor, if there is one.
#[derive(Clone, Copy)]
pub struct SequenceLine(pub Option<u64>);

impl fmt::Display for SequenceLine {
    ghost output = { λ line. sequence_text line.0 };

    fn fmt<W: fmt::Write>(&self, f: &mut fmt::Formatter<W>) -> fmt::Result {
        match self.0 {
            None => f.write_str("rows in key order"),
            Some(place) => write!(f, "row {place} is before its predecessor"),
        }
    }
}

// How many rows have a grade, or are not measured.
#[derive(Clone, Copy)]
pub struct GradeLine {
    pub grade: Option<u8>,
    pub rows: u64,
}

impl fmt::Display for GradeLine {
    ghost output = { grade_text };

    fn fmt<W: fmt::Write>(&self, f: &mut fmt::Formatter<W>) -> fmt::Result {
        let rows = self.rows;
        match self.grade {
            Some(grade) => write!(f, "grade {grade}, {rows} rows"),
            None => write!(f, "not measured, {rows} rows"),
        }
    }
}

impl fmt::Display for TableRefusal {
    ghost output = { refusal_text };

    fn fmt<W: fmt::Write>(&self, f: &mut fmt::Formatter<W>) -> fmt::Result {
        match *self {
            // other words stand between the fault's values than in FaultText
            TableRefusal::Fault(side, fault) => {
                let number = fault.number();
                let layer = fault.layer();
                let place = fault.place();
                let words = words_of(fault);
                write!(f, "refused 9 {side} {number} {layer} {place}: {words}")
            }
            TableRefusal::TooLong => f.write_str(
                "hopmap: a log has more rows than places of 32 bits can name",
            ),
            TableRefusal::Memory => f.write_str("hopmap: there is no memory left"),
        }
    }
}
