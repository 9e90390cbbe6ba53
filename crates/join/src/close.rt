ghost use Rattle.std.specs.Prelude.{◌≡◌, ◌+◌, ◌≤◌};
ghost use Rattle.std.specs.declared.cmp.Ordering.{Ordering as OrderingOf};
ghost use Rattle.machine.specs.Machine.{step_of, going};
ghost use Rattle.join.specs.declared.phase.Phase.TheVariants.{Closing, Turning};
ghost use Rattle.join.specs.Shows.{Memory, with_block, Ready, core_of, setting_by, flushed, Stepped};

use crate::phase::Phase;
use crate::settle::flush_all;
use crate::state::Join;
use crate::turn::Step;
use filters::filter::Filter;
use machine::answer::Answer;
use pipeline::entry::Entry;

impl<K: Copy> Join<K> {
    // All that waits in the block is due.
    fn flush<F: Filter>(&mut self, filter: &Option<F>, block: &mut [Entry])
        requires { Ready self.old block.old }
        ensures does { (within across : K → K → OrderingOf) (m : Memory K) →
            core_of self.new (with_block block.new m) ≡ flushed (setting_by self.old.limits F.says filter.now within across) self.old (with_block block.old m) }
        ensures limits { self.new.limits ≡ self.old.limits }
    {
        let judge = self.judge(filter);
        flush_all(&mut self.queue, &mut self.states, &judge, block);
    }

    // A turn with a batch in the block hands it over before it compares.
    pub(crate) fn flush_block<F: Filter>(&mut self, filter: &Option<F>, block: &mut [Entry])
        requires phase { self.old.phase ≡ Turning }
        requires ready { Ready self.old block.old }
        requires full { self.old.limits.batch ≤ self.old.queue.frozen + self.old.queue.unfrozen }
        ensures does { (within across : K → K → OrderingOf) (m : Memory K) →
            step_of (setting_by self.old.limits F.says filter.now within across) (core_of self.old (with_block block.old m))
            ≡ going (core_of self.new (with_block block.new m)) }
        ensures limits { self.new.limits ≡ self.old.limits }
    {
        self.flush(filter, block);
    }

    // With both sides ended all is due; otherwise the turn is over, but after the first call's loads it begins.
    pub(crate) fn close<F: Filter>(
        &mut self,
        first: bool,
        filter: &Option<F>,
        block: &mut [Entry],
    ) -> Step
        requires phase { self.old.phase ≡ Closing first }
        requires ready { Ready self.old block.old }
        ensures does { (within across : K → K → OrderingOf) (m : Memory K) →
            Stepped (step_of (setting_by self.old.limits F.says filter.now within across) (core_of self.old (with_block block.old m)))
            result (core_of self.new (with_block block.new m)) }
        ensures limits { self.new.limits ≡ self.old.limits }
    {
        if self.streamed.ended && self.buffered_ended {
            self.phase = Phase::Done;
            self.flush(filter, block);
            return Step::Going;
        }
        self.phase = Phase::Turning;
        if first {
            return Step::Going;
        }
        Step::Said(Ok(Answer::More))
    }
}
