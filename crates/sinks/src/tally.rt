ghost use Rattle.std.specs.Prelude.{◌≡◌, ◌^◌, ◌<◌, MatchOption};
ghost use Rattle.sinks.specs.declared.tally.Counts.{Counts as CountsOf};
ghost use Rattle.sinks.specs.Tallies.{total, counted, tally_fits, TallyCounts};

use crate::sink::{Sink, Unfit};
use rows::record::Record;

// How many pairs, left rows alone and right rows alone were taken.
#[derive(Clone, Copy, PartialEq, Eq, Debug, Default)]
pub struct Counts {
    pub pairs: u64,
    pub left_alone: u64,
    pub right_alone: u64,
}

// Counts the records taken, by what they hold.
#[derive(Clone, Copy)]
pub struct Tally {
    counts: Counts,
    ghost below: { total counts < 2 ^ 64 },
}

impl Tally {
    // A tally of nothing.
    #[tactic(auto, using(crate::proofs::Laws::tally_counts))]
    pub fn new() -> Tally
        ensures empty { result.counts ≡ record { pairs = 0; left_alone = 0; right_alone = 0 } }
        ensures counts { TallyCounts }
    {
        Tally {
            counts: Counts::default(),
        }
    }

    // A tally that begins at these counts, none where their total is not below 2^64.
    pub fn of(counts: Counts) -> Option<Tally>
        ensures { MatchOption result (total counts < 2 ^ 64 → ⊥) (λ t. t.counts ≡ counts) }
    {
        let alone = counts.left_alone.checked_add(counts.right_alone)?;
        counts.pairs.checked_add(alone)?;
        Some(Tally { counts })
    }

    pub fn pairs(&self) -> u64
        ensures { result ≡ self.now.counts.pairs }
    {
        self.counts.pairs
    }

    pub fn left_alone(&self) -> u64
        ensures { result ≡ self.now.counts.left_alone }
    {
        self.counts.left_alone
    }

    pub fn right_alone(&self) -> u64
        ensures { result ≡ self.now.counts.right_alone }
    {
        self.counts.right_alone
    }

    pub fn total(&self) -> u64
        ensures { result ≡ total self.now.counts }
    {
        let Counts {
            pairs,
            left_alone,
            right_alone,
        } = self.counts;
        pairs + left_alone + right_alone
    }
}

impl Sink for Tally {
    ghost Value = { CountsOf };

    ghost value = { λ s. s.counts };

    ghost fitting = { tally_fits };

    ghost after = { counted };

    fn fits(&self, _x: Record) -> bool {
        self.total() < u64::MAX
    }

    fn take(&mut self, x: Record) -> Result<(), Unfit> {
        if !self.fits(x) {
            return Err(Unfit);
        }
        match x {
            Record::Pair(_, _) => self.counts.pairs += 1,
            Record::LeftAlone(_) => self.counts.left_alone += 1,
            Record::RightAlone(_) => self.counts.right_alone += 1,
        }
        Ok(())
    }
}
