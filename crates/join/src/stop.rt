ghost use Rattle.std.specs.Prelude.{◌≡◌, Err};
ghost use Rattle.pipeline.specs.Block.{queued};
ghost use Rattle.machine.specs.Machine.{core, stopped};
ghost use Rattle.join.specs.declared.turn.Step.TheVariants.{Said};
ghost use Rattle.join.specs.Shows.{Memory, core_of, streamed_of, buffered_of, counts_of};

use crate::phase::Phase;
use crate::state::Join;
use crate::turn::Step;
use machine::fault::JoinFault;

impl<K: Copy> Join<K> {
    // A fault stops the join for good.
    pub(crate) fn stop(&mut self, fault: JoinFault) -> Step
        ensures says { result ≡ Said (Err fault) }
        ensures does { (m : Memory K) → core_of self.new m ≡ core (streamed_of self.old m) (buffered_of self.old m) (queued self.old.queue m.block) (counts_of self.old.counts) (stopped fault) }
        ensures limits { self.new.limits ≡ self.old.limits }
    {
        self.phase = Phase::Stopped(fault);
        Step::Said(Err(fault))
    }
}
