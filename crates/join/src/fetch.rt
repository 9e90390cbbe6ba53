ghost use Rattle.std.specs.Prelude.{◌≡◌, ◌+◌, ◌≤◌, List, length, take};
ghost use Rattle.rows.specs.declared.row.Row.{Row as RowOf};
ghost use Rattle.sources.specs.Meaning.{Closing as ClosingOf};
ghost use Rattle.join.specs.declared.phase.Phase.TheVariants.{Fetching};
ghost use Rattle.machine.specs.Machine.{Setting, Streamed, streamed_read, disorder, step_of};
ghost use Rattle.join.specs.Shows.{Memory, memory, Ready, core_of, setting_by, Stepped};
ghost use Rattle.join.specs.Phases.{pending, fetched};
ghost use Rattle.join.specs.Taken.{Before, use_taken};

use crate::load::{first_unsorted, last_row, next_size};
use crate::parts::StreamedBatch;
use crate::phase::Phase;
use crate::settle::freeze_unfrozen;
use crate::state::Join;
use crate::turn::Step;
use filters::filter::Filter;
use machine::fault::JoinFault;
use pipeline::entry::Entry;
use rows::order::KeyOrder;
use rows::row::Row;
use sources::source::Source;

// The first call goes on to the first run; a later load ends a turn.
fn after_fetch_of(first: bool) -> Phase
    ensures adds { pending result ≡ 0 }
    ensures is { result ≡ fetched first }
{
    if first {
        Phase::Seeding { first: true }
    } else {
        Phase::Closing { first: false }
    }
}

impl<K: Copy> Join<K> {
    // The next streamed batch. The checks go by size; the unfrozen freeze before it is taken, and then it is asked for again.
    pub(crate) fn fetch<O: KeyOrder<Key = K>, F: Filter, S: Source<Key = K>>(
        &mut self,
        first: bool,
        order: &O,
        filter: &Option<F>,
        source: &mut S,
        table: &mut [Row<K>],
        block: &mut [Entry],
    ) -> Step
        requires phase { self.old.phase ≡ Fetching first }
        requires ready { Ready self.old block.old }
        requires table { length table.old ≡ self.old.limits.streamed }
        ensures does { (bl : List (List (RowOf K))) (bc : ClosingOf) (bt : List (RowOf K)) →
            Stepped (step_of (setting_by self.old.limits F.says filter.now (O.within order.now) (O.across order.now))
            (core_of self.old (memory (S.Source.batches source.old) (S.Source.closing source.old) bl bc table.old bt block.old)))
            result (core_of self.new (memory (S.Source.batches source.new) (S.Source.closing source.new) bl bc table.new bt block.new)) }
        ensures limits { self.new.limits ≡ self.old.limits }
    {
        let read = self.streamed.read();
        let n = match next_size(source, read, false, self.limits.streamed) {
            Err(fault) => {
                let side = self.limits.kind.streamed_side();
                return self.stop(fault.on(side, read));
            }
            Ok(None) => {
                self.streamed.ended = true;
                self.phase = after_fetch_of(first);
                return Step::Going;
            }
            Ok(Some(0)) => {
                let _ = source.take(table);
                return Step::Going;
            }
            Ok(Some(n)) => n,
        };
        if self.queue.unfrozen > 0 {
            let judge = self.judge(filter);
            freeze_unfrozen(&mut self.queue, &mut self.states, &judge, block);
            return Step::Going;
        }
        let _ = source.take(table);
        self.use_streamed(first, order, table, n)
    }

    // Puts a batch that was taken to use, unless it is unsorted. It is given the whole table, of which the join's meaning speaks, and
    // how many rows came.
    fn use_streamed<O: KeyOrder<Key = K>>(
        &mut self,
        first: bool,
        order: &O,
        table: &[Row<K>],
        n: usize,
    ) -> Step
        requires fits { n ≤ self.old.limits.streamed }
        requires taken { n ≤ length table.now }
        requires places { self.old.streamed.first + self.old.streamed.rows + n ≤ 16777215 }
        ensures does { (c : Setting K) (m : Memory K) (st : Streamed K) → c.kind ≡ self.old.limits.kind → m.streamed ≡ table.now → Before self.old m st →
            Stepped (use_taken c (disorder (O.KeyOrder.within order.now) st.last (take n m.streamed) (streamed_read st)) first n self.old m st) result (core_of self.new m) }
        ensures limits { self.new.limits ≡ self.old.limits }
    {
        let read = self.streamed.read();
        let taken = &table[..n];
        if let Some(place) = first_unsorted(order, &self.streamed_last, taken, read) {
            self.streamed = StreamedBatch::new(read, 0);
            let side = self.limits.kind.streamed_side();
            return self.stop(JoinFault::Unsorted { side, place });
        }
        self.streamed_last = last_row(self.streamed_last, taken);
        self.streamed = StreamedBatch::new(read, n);
        self.phase = after_fetch_of(first);
        Step::Going
    }
}
