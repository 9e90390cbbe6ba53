ghost use Rattle.std.specs.Prelude.{◌≡◌, Bool};
ghost use Rattle.rows.specs.declared.record.Record.{Record as RecordOf};
ghost use Rattle.sinks.specs.Meaning.{answered, left_with, TookFirst};

use rows::record::Record;

// The record does not fit, and the sink is as it was.
#[derive(Clone, Copy, PartialEq, Eq, Debug)]
pub struct Unfit;

impl Unfit {
    // The rules give each refusal a number.
    pub const NUMBER: u8 = 11;

    pub fn number(&self) -> u8
        ensures { result ≡ 11 }
    {
        Self::NUMBER
    }
}

// A sink means a value, whether a record fits a value, and the value after taking it.
pub trait Sink {
    ghost Value: { Type 0 };

    ghost value: { Self → Value };

    ghost fitting: { Value → RecordOf → Bool };

    ghost after: { Value → RecordOf → Value };

    // Whether the record fits.
    fn fits(&self, x: Record) -> bool
        ensures { result ≡ fitting (value self.now) x };

    // Takes the record if it fits.
    fn take(&mut self, x: Record) -> Result<(), Unfit>
        ensures answer { result ≡ answered (fitting (value self.old) x) }
        ensures left { value self.new ≡ left_with fitting after (value self.old) x };
}

// Takes the records in sequence, up to the first that does not fit, and answers how many it took.
#[tactic(auto, using(crate::proofs::Leading::led_next))]
pub fn take_all<S: Sink>(sink: &mut S, records: &[Record]) -> usize
    ensures { TookFirst S.fitting S.after (S.value sink.old) records.now result (S.value sink.new) }
{
    // Not `position`: of a closure that takes into the sink, no clause says what the sink holds afterwards.
    for (i, x) in records.iter().enumerate() {
        if sink.take(*x).is_err() {
            return i;
        }
    }
    records.len()
}
