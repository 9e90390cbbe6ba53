ghost use Rattle.std.specs.Prelude.{◌≡◌, ◌+◌, ◌<◌, ◌≤◌};
ghost use Rattle.join.specs.Phases.{pending};

use crate::limits::Limits;
use crate::parts::{Counts, StreamedBatch};
use crate::phase::Phase;
use pipeline::freeze::Judge;
use pipeline::held::BufferedData;
use pipeline::queue::Queue;
use pipeline::states::States;
use rows::row::Row;

// A join that is open. The rows of the streamed batch and of the held buffered batches lie in the tables that every turn is
// given, the entries in the block.
#[derive(Drop)]
pub struct Join<K> {
    // no step changes them, as each says in a clause; they stand here, since the invariants below tie the rest to them
    pub(crate) limits: Limits,
    pub(crate) phase: Phase,
    pub(crate) counts: Counts,
    pub(crate) queue: Queue,
    pub(crate) streamed: StreamedBatch,
    pub(crate) buffered: BufferedData,
    pub(crate) buffered_ended: bool,
    pub(crate) streamed_last: Option<Row<K>>,
    pub(crate) buffered_last: Option<Row<K>>,
    pub(crate) states: States,
    ghost rows: { counts.rows ≤ streamed.first + streamed.at },
    ghost runs: { counts.runs ≤ buffered.base + buffered.start },
    ghost ours: { streamed.rows ≤ limits.streamed },
    ghost theirs: { buffered.held ≤ limits.buffered },
    ghost states_held: { states.len ≡ buffered.held },
    ghost noted: { queue.noted ≤ buffered.start },
    ghost room: { queue.frozen + queue.unfrozen + queue.noted + pending phase ≤ limits.batch + limits.buffered },
    ghost below: { queue.unfrozen < limits.batch },
    ghost front: { queue.next + queue.due ≤ limits.block },
}

impl<K> Join<K> {
    // What the join judges pairs with.
    pub(crate) fn judge<'a, F>(&self, filter: &'a Option<F>) -> Judge<'a, F>
        ensures { result ≡ record { filter = filter.entry; kind = self.now.limits.kind; base = self.now.buffered.base } }
    {
        Judge {
            filter,
            kind: self.limits.kind,
            base: self.buffered.base,
        }
    }
}
