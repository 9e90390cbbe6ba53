ghost use Rattle.std.specs.Prelude.{◌≡◌, ◌+◌, ◌≤◌};
ghost use Rattle.pipeline.specs.Block.{queued, freeze, freeze_all};
ghost use Rattle.machine.specs.Machine.{let_go, flush};
ghost use Rattle.join.specs.Settled.{Idle, Settled, Marked, asked, defers};

use filters::filter::Filter;
use pipeline::entry::Entry;
use pipeline::freeze::Judge;
use pipeline::queue::Queue;
use pipeline::states::States;

// Queue and states are two fields of a join, of which a step changes others too, and the block is the caller's: so they stand apart.

// A filtered left, right or full join defers its records until they are corrected.
fn defers<F>(judge: &Judge<F>) -> bool
    ensures { result ≡ defers judge.now }
{
    judge.filter.is_some() && judge.kind.lists_streamed()
}

// What is frozen is due at once, unless it is deferred.
pub(crate) fn let_frozen_go<F>(queue: &mut Queue, judge: &Judge<F>, block: &mut [Entry])
    requires idle { Idle queue.old block.old }
    requires unfrozen { queue.old.unfrozen ≡ 0 }
    ensures queue { Settled (let_go (defers judge.now)) queue.old block.old queue.new block.new }
    ensures numbers { (queue.new.frozen ≤ queue.old.frozen) × ((queue.new.unfrozen ≡ 0) × (queue.new.noted ≡ queue.old.noted)) }
{
    if !defers(judge) {
        let _ = queue.release(block);
    }
}

// The unfrozen freeze, and the noted stay where they are. It and the next function differ in a call alone: a function of both
// would take that call as a closure and say its contract once more.
pub(crate) fn freeze_unfrozen<F: Filter>(
    queue: &mut Queue,
    states: &mut States,
    judge: &Judge<F>,
    block: &mut [Entry],
)
    requires { Idle queue.old block.old }
    ensures queue { Settled (λ q. let_go (defers judge.now) (freeze (asked F.says judge.now) q)) queue.old block.old queue.new block.new }
    ensures states { Marked F.says judge.now (queued queue.old block.old) states.old states.new }
    ensures numbers { (queue.new.frozen ≤ queue.old.frozen + queue.old.unfrozen) × ((queue.new.unfrozen ≡ 0) × (queue.new.noted ≡ queue.old.noted)) }
{
    let _ = queue.freeze(judge, states, block);
    let_frozen_go(queue, judge, block);
}

// Noted buffered rows freeze first, then the unfrozen.
pub(crate) fn freeze_everything<F: Filter>(
    queue: &mut Queue,
    states: &mut States,
    judge: &Judge<F>,
    block: &mut [Entry],
)
    requires { Idle queue.old block.old }
    ensures queue { Settled (λ q. let_go (defers judge.now) (freeze_all (asked F.says judge.now) q)) queue.old block.old queue.new block.new }
    ensures states { Marked F.says judge.now (queued queue.old block.old) states.old states.new }
    ensures numbers { (queue.new.frozen ≤ queue.old.frozen + queue.old.unfrozen + queue.old.noted) × ((queue.new.unfrozen ≡ 0) × (queue.new.noted ≡ 0)) }
{
    let _ = queue.freeze_all(judge, states, block);
    let_frozen_go(queue, judge, block);
}

// All is frozen, corrected where it was deferred, and due.
pub(crate) fn flush_all<F: Filter>(
    queue: &mut Queue,
    states: &mut States,
    judge: &Judge<F>,
    block: &mut [Entry],
)
    requires { Idle queue.old block.old }
    ensures queue { Settled (flush (defers judge.now) judge.now.kind (asked F.says judge.now)) queue.old block.old queue.new block.new }
    ensures states { Marked F.says judge.now (queued queue.old block.old) states.old states.new }
    ensures numbers { (queue.new.frozen ≡ 0) × ((queue.new.unfrozen ≡ 0) × (queue.new.noted ≡ 0)) }
{
    let _ = queue.freeze_all(judge, states, block);
    if defers(judge) {
        let _ = queue.correct(judge.kind, block);
    } else {
        let _ = queue.release(block);
    }
}
