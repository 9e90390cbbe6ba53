ghost use Rattle.std.specs.Prelude.{◌≡◌, ℕ, ◌+◌, ◌<◌, ◌≤◌};
ghost use Rattle.join.specs.declared.phase.Phase.TheVariants.{Passing};
ghost use Rattle.join.specs.Shows.{Memory, core_of, FitsMemory};
ghost use Rattle.machine.specs.Machine.{Setting, step_of, going, counted_row};
ghost use Rattle.join.specs.Counting.{RowCounted};

use crate::parts::Counts;
use crate::phase::Phase;
use crate::state::Join;

impl Counts {
    fn count_row(&mut self)
        requires { (self.old.rows < 16777215) × (self.old.runs ≤ 16777215) }
        ensures { RowCounted self.old self.new }
    {
        self.turns += 1;
        self.rows += 1;
    }
}

impl<K: Copy> Join<K> {
    // The streamed row is passed.
    pub(crate) fn pass_row(&mut self)
        requires { self.old.phase ≡ Passing }
        ensures does { (c : Setting K) (m : Memory K) → FitsMemory self.old.limits m → step_of c (core_of self.old m) ≡ going (core_of self.new m) }
        ensures limits { self.new.limits ≡ self.old.limits }
    {
        if self.streamed.at >= self.streamed.rows {
            self.phase = Phase::Fetching { first: false };
            return;
        }
        self.counts.count_row();
        self.streamed.at += 1;
        if self.streamed.at < self.streamed.rows {
            self.phase = Phase::Closing { first: false };
        } else {
            self.phase = Phase::Fetching { first: false };
        }
    }
}
