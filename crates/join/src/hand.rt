ghost use Rattle.std.specs.Prelude.{◌≡◌, ◌<◌, length};
ghost use Rattle.pipeline.specs.Block.{queued, Roomy, handed};
ghost use Rattle.machine.specs.Machine.{Setting, micro};
ghost use Rattle.join.specs.Shows.{Memory, with_block, core_of, MovedBy};

use crate::state::Join;
use crate::turn::Step;
use machine::answer::Answer;
use pipeline::entry::Entry;
use pipeline::queue::Queue;
use sinks::sink::Sink;

// The next due record leaves the block.
fn hand_next(queue: &mut Queue, block: &[Entry])
    requires { Roomy queue.old block.now }
    ensures queue { queued queue.new block.now ≡ handed (queued queue.old block.now) }
    ensures roomy { Roomy queue.new block.now }
    ensures numbers { (queue.new.frozen ≡ queue.old.frozen) × ((queue.new.unfrozen ≡ queue.old.unfrozen) × (queue.new.noted ≡ queue.old.noted)) }
{
    queue.hand(block);
}

impl<K: Copy> Join<K> {
    // The next due record is handed over, if it fits.
    pub(crate) fn hand<T: Sink>(&mut self, block: &[Entry], sink: &mut T) -> Step
        requires due { 0 < self.old.queue.due }
        requires block { length block.now ≡ self.old.limits.block }
        ensures does { (c : Setting K) (m : Memory K) →
            MovedBy (micro c T.Sink.fitting T.Sink.after (core_of self.old (with_block block.now m)) (T.Sink.value sink.old))
            result (core_of self.new (with_block block.now m)) (T.Sink.value sink.new) }
        ensures limits { self.new.limits ≡ self.old.limits }
    {
        let Some(record) = self.queue.next_due(block) else {
            return Step::Going;
        };
        if sink.take(record).is_err() {
            return Step::Said(Ok(Answer::Waiting));
        }
        hand_next(&mut self.queue, block);
        self.counts.handed = self.counts.handed.saturating_add(1);
        Step::Handed(record)
    }
}
