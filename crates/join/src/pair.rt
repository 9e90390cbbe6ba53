ghost use Rattle.std.specs.Prelude.{◌≡◌, ℕ, ◌+◌, ◌<◌, ◌≤◌, min, ◌++◌, length, take, drop};
ghost use Rattle.std.specs.declared.cmp.Ordering.TheVariants.{Equal as Same};
ghost use Rattle.std.specs.declared.cmp.Ordering.{Ordering as Compared};
ghost use Rattle.pipeline.specs.Held.{holding, run_at, pairs_with};
ghost use Rattle.join.specs.declared.phase.Phase.TheVariants.{Turning, Pairing};
ghost use Rattle.machine.specs.Machine.{Setting, going, step_of};
ghost use Rattle.join.specs.Shows.{Memory, with_block, with_tables, FitsTables, FitsMemory, Ready, core_of, setting_by, turned};
ghost use Rattle.join.specs.Pairing.{Written, adding};
ghost use Rattle.join.specs.Phases.{pending};

use crate::parts::StreamedBatch;
use crate::phase::{Pairs, Phase};
use crate::settle::freeze_everything;
use crate::state::Join;
use filters::filter::Filter;
use pipeline::entry::{Entry, StreamedRow};
use pipeline::pairing::{Position, Stop};
use rows::reading::Reading;
use rows::row::Row;

impl<K: Copy> Join<K> {
    // The streamed row is same as the run: its pairs begin with the run's first row.
    pub(crate) fn begin_pairs(&mut self)
        requires phase { self.old.phase ≡ Turning }
        requires below { self.old.queue.frozen + self.old.queue.unfrozen < self.old.limits.batch }
        ensures does { (c : Setting K) (m : Memory K) → FitsMemory self.old.limits m → turned c Same self.old m ≡ going (core_of self.new m) }
        ensures limits { self.new.limits ≡ self.old.limits }
    {
        let batches = &self.buffered.batches[..self.buffered.count];
        let row = batches.first().map_or(0, |batch| batch.start);
        let left = self.buffered.end - self.buffered.start;
        self.phase = Phase::Pairing(Pairs {
            batch: 0,
            row,
            left,
        });
    }

    // Pairs the streamed row, whose reading is given, with what is left of the run, until `out` is full.
    fn pair_into(
        &self,
        pairs: Pairs,
        reading: Reading,
        buffered: &[Row<K>],
        out: &mut [Entry],
    ) -> Stop
        requires { self.now.streamed.at < self.now.streamed.rows }
        ensures count { result.count ≡ min (length (run_at (holding self.now.buffered) pairs.batch pairs.row buffered.now)) (length out.old) }
        ensures written { out.new ≡ pairs_with self.now.limits.kind (record { batch = self.now.streamed.first; row = self.now.streamed.at }) (self.now.streamed.first + self.now.streamed.at) reading (take result.count (run_at (holding self.now.buffered) pairs.batch pairs.row buffered.now)) ++ drop result.count out.old }
        ensures left { run_at (holding self.now.buffered) result.position.batch result.position.row buffered.now ≡ drop result.count (run_at (holding self.now.buffered) pairs.batch pairs.row buffered.now) }
    {
        let Pairs { batch, row, .. } = pairs;
        let StreamedBatch { first, at, .. } = self.streamed;
        let streamed = StreamedRow {
            batch: first,
            row: at as u32,
        };
        let place = first + at as u32;
        let position = Position { batch, row };
        self.buffered.pair_rows(
            self.limits.kind,
            buffered,
            position,
            streamed,
            place,
            reading,
            out,
        )
    }

    // The tables and the block are the caller's, and stand apart since a step reads the tables and writes the block.

    // Writes the next pairs of the streamed row behind the unfrozen, as many as these leave room for, and says how many. With
    // none left to write the row is passed.
    pub(crate) fn write_pairs(
        &mut self,
        pairs: Pairs,
        streamed: &[Row<K>],
        buffered: &[Row<K>],
        block: &mut [Entry],
    ) -> usize
        requires phase { self.old.phase ≡ Pairing pairs }
        requires ready { Ready self.old block.old }
        requires tables { FitsTables self.old.limits streamed.now buffered.now }
        ensures { Written self.old self.new streamed.now buffered.now block.old block.new result }
    {
        let at = self.streamed.at;
        if at >= self.streamed.rows {
            self.phase = Phase::Passing;
            return 0;
        }
        let from = self.queue.frozen + self.queue.unfrozen;
        let most = pairs.left.min(self.limits.batch - self.queue.unfrozen);
        let stop = self.pair_into(
            pairs,
            streamed[at].reading,
            buffered,
            &mut block[from..from + most],
        );
        if stop.count == 0 {
            self.buffered.mark_matched();
            self.phase = Phase::Passing;
            return 0;
        }
        self.phase = Phase::Pairing(Pairs {
            batch: stop.position.batch,
            row: stop.position.row,
            left: pairs.left - stop.count,
        });
        stop.count
    }

    // Entries written behind the unfrozen join them; all is frozen when they reach the batch size.
    pub(crate) fn add_written<F: Filter>(
        &mut self,
        count: usize,
        filter: &Option<F>,
        block: &mut [Entry],
    )
        requires ready { Ready self.old block.old }
        requires room { self.old.queue.unfrozen + count ≤ self.old.limits.batch }
        requires bounded { self.old.queue.frozen + self.old.queue.unfrozen + self.old.queue.noted + count + pending self.old.phase ≤ self.old.limits.batch + self.old.limits.buffered }
        ensures does { (within across : K → K → Compared) (m : Memory K) →
            adding (setting_by self.old.limits F.says filter.now within across) count self.old (with_block block.old m) ≡ going (core_of self.new (with_block block.new m)) }
        ensures limits { self.new.limits ≡ self.old.limits }
    {
        let judge = self.judge(filter);
        self.queue.unfrozen += count;
        if self.queue.unfrozen >= self.limits.batch {
            freeze_everything(&mut self.queue, &mut self.states, &judge, block);
        }
    }

    // Pairs the streamed row with as much of the run as the unfrozen leave room for.
    pub(crate) fn pair<F: Filter>(
        &mut self,
        pairs: Pairs,
        filter: &Option<F>,
        streamed: &[Row<K>],
        buffered: &[Row<K>],
        block: &mut [Entry],
    )
        requires phase { self.old.phase ≡ Pairing pairs }
        requires ready { Ready self.old block.old }
        requires tables { FitsTables self.old.limits streamed.now buffered.now }
        ensures does { (within across : K → K → Compared) (m : Memory K) →
            step_of (setting_by self.old.limits F.says filter.now within across) (core_of self.old (with_tables streamed.now buffered.now block.old m))
            ≡ going (core_of self.new (with_tables streamed.now buffered.now block.new m)) }
        ensures limits { self.new.limits ≡ self.old.limits }
    {
        let count = self.write_pairs(pairs, streamed, buffered, block);
        if count > 0 {
            self.add_written(count, filter, block);
        }
    }
}
