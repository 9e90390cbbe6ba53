ghost use Rattle.std.specs.Prelude.{◌≡◌, ◌+◌, ◌<◌, ◌≤◌, [], ◌∷◌, length};
ghost use Rattle.std.specs.declared.cmp.Ordering.TheVariants.{Less};
ghost use Rattle.std.specs.declared.cmp.Ordering.{Ordering as OrderingOf};
ghost use Rattle.pipeline.specs.Block.{queued, Roomy, pushed};
ghost use Rattle.pipeline.specs.Entries.{lone};
ghost use Rattle.pipeline.specs.Orient.{streamed_alone};
ghost use Rattle.machine.specs.Machine.{going};
ghost use Rattle.join.specs.declared.phase.Phase.TheVariants.{Turning};
ghost use Rattle.join.specs.Settled.{Idle};
ghost use Rattle.join.specs.Shows.{Memory, with_block, Ready, core_of, setting_by, turned};

use crate::phase::Phase;
use crate::settle::freeze_everything;
use crate::state::Join;
use filters::filter::Filter;
use pipeline::entry::Entry;
use pipeline::orient::streamed_record;
use pipeline::queue::Queue;
use rows::kind::Kind;

// The streamed row at a place enters the block alone.
fn push_lone(queue: &mut Queue, kind: Kind, place: u32, block: &mut [Entry])
    requires idle { Idle queue.old block.old }
    requires room { queue.old.frozen + queue.old.unfrozen + queue.old.noted + 1 ≤ length block.old }
    ensures queue { queued queue.new block.new ≡ pushed (lone (streamed_alone kind place) ∷ []) (queued queue.old block.old) }
    ensures roomy { Roomy queue.new block.new }
    ensures numbers { (queue.new.frozen ≡ queue.old.frozen) × ((queue.new.unfrozen ≡ queue.old.unfrozen + 1) × ((queue.new.noted ≡ queue.old.noted) × (queue.new.due ≡ 0))) }
{
    let _ = queue.push(block, Entry::lone(streamed_record(kind, place)));
}

impl<K: Copy> Join<K> {
    // The streamed row is before the run: it is noted alone, but in an inner join.
    pub(crate) fn note_row<F: Filter>(&mut self, filter: &Option<F>, block: &mut [Entry])
        requires phase { self.old.phase ≡ Turning }
        requires ready { Ready self.old block.old }
        requires below { self.old.queue.frozen + self.old.queue.unfrozen < self.old.limits.batch }
        ensures does { (within across : K → K → OrderingOf) (m : Memory K) →
            turned (setting_by self.old.limits F.says filter.now within across) Less self.old (with_block block.old m) ≡ going (core_of self.new (with_block block.new m)) }
        ensures limits { self.new.limits ≡ self.old.limits }
    {
        self.phase = Phase::Passing;
        let kind = self.limits.kind;
        if !kind.lists_streamed() {
            return;
        }
        let place = self.streamed.first + self.streamed.at as u32;
        let judge = self.judge(filter);
        push_lone(&mut self.queue, kind, place, block);
        if self.queue.unfrozen >= self.limits.batch {
            freeze_everything(&mut self.queue, &mut self.states, &judge, block);
        }
    }
}
