ghost use Rattle.std.specs.Prelude.{◌≡◌, ◌+◌, ◌-◌, ◌<◌, ◌&&◌, List, [], ◌∷◌, length, take, drop, if◌then◌else◌, is_ok, ◌==◌, nat_le, nat_lt, slice_set};
ghost use Rattle.pipeline.specs.declared.entry.Entry.{Entry as EntryOf};
ghost use Rattle.pipeline.specs.Block.{queued, Roomy, empty, has_room, can_hand, can_note, can_leave, places, Step, next_of, handed, pushed, release, correct, freeze, freeze_all, noting, leave};
ghost use Rattle.pipeline.specs.Freezing.{asking, judged_all};
ghost use Rattle.pipeline.specs.States.{states_of, marking};

use crate::correction::correct_entries;
use crate::entry::Entry;
use crate::freeze::{Judge, freeze_entries, keep_passing};
use crate::noted::{Leaving, bring_in, bring_oldest, list_failed, most_failed};
use crate::orient::buffered_record;
use crate::refused::Refused;
use crate::states::States;
use filters::filter::Filter;
use rows::kind::Kind;
use rows::record::Record;

// How the block is used: frozen entries from its front, the unfrozen after them, noted buffered rows from its end downwards,
// the oldest last. While records are due, `due` entries from `next` on hold them, and nothing is frozen or unfrozen. The block is
// the caller's between calls, so every method takes it.
#[derive(Clone, Copy, PartialEq, Eq, Debug, Default)]
pub struct Queue {
    pub next: usize,
    pub due: usize,
    pub frozen: usize,
    pub unfrozen: usize,
    pub noted: usize,
}

// How many places there are.
const PLACES: usize = 4_294_967_296;

impl Queue {
    pub fn new() -> Queue
        ensures holds { (block : List EntryOf) → queued result block ≡ empty }
        ensures roomy { (block : List EntryOf) → Roomy result block }
    {
        Queue::default()
    }

    // Whether a record is due.
    fn has_due(&self, block: &[Entry]) -> bool
        ensures { result ≡ (nat_lt 0 self.now.due && nat_lt self.now.next (length block.now)) }
    {
        self.due > 0 && self.next < block.len()
    }

    // The next due record.
    pub fn next_due(&self, block: &[Entry]) -> Option<Record>
        ensures { result ≡ next_of (queued self.now block.now).due }
    {
        if self.has_due(block) {
            Some(block[self.next].record)
        } else {
            None
        }
    }

    // The next due record is handed over.
    pub fn hand(&mut self, block: &[Entry])
        ensures holds { queued self.new block.now ≡ handed (queued self.old block.now) }
        ensures roomy { Roomy self.old block.now → Roomy self.new block.now }
    {
        if self.has_due(block) {
            self.next += 1;
            self.due -= 1;
        }
    }

    // Whether nothing is due and there is room for n entries more; the sums of the numbers may not fit.
    fn has_room(&self, block: &[Entry], n: usize) -> bool
        ensures { result ≡ has_room n self.now block.now }
    {
        let length = block.len();
        self.due == 0
            && self.frozen <= length
            && self.unfrozen <= length - self.frozen
            && self.noted <= length - self.frozen - self.unfrozen
            && n <= length - self.frozen - self.unfrozen - self.noted
    }

    // One entry more that is not frozen yet.
    pub fn push(&mut self, block: &mut [Entry], entry: Entry) -> Result<(), Refused>
        ensures { Step (has_room 1 self.old block.old) (pushed (entry ∷ [])) self.old block.old result self.new block.new }
    {
        if !self.has_room(block, 1) {
            return Err(Refused);
        }
        block[self.frozen + self.unfrozen] = entry;
        self.unfrozen += 1;
        Ok(())
    }

    // The n entries that were written behind the unfrozen are unfrozen too.
    pub fn add(&mut self, block: &[Entry], n: usize) -> Result<(), Refused>
        ensures { Step (has_room n self.old block.now) (pushed (take n (drop (self.old.frozen + self.old.unfrozen) block.now))) self.old block.now result self.new block.now }
    {
        if !self.has_room(block, n) {
            return Err(Refused);
        }
        self.unfrozen += n;
        Ok(())
    }

    // Whether what is frozen can become due.
    fn can_hand(&self, block: &[Entry]) -> bool
        ensures { result ≡ can_hand self.now block.now }
    {
        self.unfrozen == 0 && self.has_room(block, 0)
    }

    // What is frozen becomes due as it is, lone rows and passing pairs; nothing may be unfrozen.
    pub fn release(&mut self, block: &mut [Entry]) -> Result<(), Refused>
        ensures { Step (can_hand self.old block.old) release self.old block.old result self.new block.new }
    {
        if !self.can_hand(block) {
            return Err(Refused);
        }
        let frozen = self.frozen;
        let count = keep_passing(&mut block[0..frozen]);
        self.make_due(count);
        Ok(())
    }

    // What is frozen becomes due corrected; nothing may be unfrozen.
    pub fn correct(&mut self, kind: Kind, block: &mut [Entry]) -> Result<(), Refused>
        ensures { Step (can_hand self.old block.old) (correct kind) self.old block.old result self.new block.new }
    {
        if !self.can_hand(block) {
            return Err(Refused);
        }
        let frozen = self.frozen;
        let count = correct_entries(kind, &mut block[0..frozen]);
        self.make_due(count);
        Ok(())
    }

    // The first entries of the block are due, and none is frozen.
    fn make_due(&mut self, count: usize)
        ensures { self.new ≡ record { next = 0; due = count; frozen = 0; unfrozen = self.old.unfrozen; noted = self.old.noted } }
    {
        self.next = 0;
        self.due = count;
        self.frozen = 0;
    }

    // Freezes the unfrozen; the noted stay where they are.
    pub fn freeze<F: Filter>(
        &mut self,
        judge: &Judge<F>,
        states: &mut States,
        block: &mut [Entry],
    ) -> Result<(), Refused>
        ensures block { Step (has_room 0 self.old block.old) (freeze (asking F.Filter.says judge.now.filter.now)) self.old block.old result self.new block.new }
        ensures states { states_of states.new ≡ (if is_ok result then marking judge.now.kind judge.now.base (judged_all (asking F.Filter.says judge.now.filter.now) (queued self.old block.old).unfrozen) (states_of states.old) else states_of states.old) }
    {
        if !self.has_room(block, 0) {
            return Err(Refused);
        }
        let from = self.frozen;
        let to = from + self.unfrozen;
        freeze_entries(judge, states, &mut block[from..to]);
        self.frozen = to;
        self.unfrozen = 0;
        Ok(())
    }

    // Freezes all: the noted buffered rows first, then the unfrozen.
    pub fn freeze_all<F: Filter>(
        &mut self,
        judge: &Judge<F>,
        states: &mut States,
        block: &mut [Entry],
    ) -> Result<(), Refused>
        ensures block { Step (has_room 0 self.old block.old) (freeze_all (asking F.Filter.says judge.now.filter.now)) self.old block.old result self.new block.new }
        ensures states { states_of states.new ≡ (if is_ok result then marking judge.now.kind judge.now.base (judged_all (asking F.Filter.says judge.now.filter.now) (queued self.old block.old).unfrozen) (states_of states.old) else states_of states.old) }
    {
        if !self.has_room(block, 0) {
            return Err(Refused);
        }
        let Queue {
            frozen,
            unfrozen,
            noted,
            ..
        } = *self;
        bring_in(block, frozen, unfrozen, noted);
        self.frozen = frozen + noted;
        self.noted = 0;
        self.freeze(judge, states, block)
    }

    // One noted buffered row more.
    fn note(&mut self, block: &mut [Entry], entry: Entry)
        requires { self.old.noted < length block.old }
        ensures numbers { self.new ≡ record { next = self.old.next; due = self.old.due; frozen = self.old.frozen; unfrozen = self.old.unfrozen; noted = self.old.noted + 1 } }
        ensures block { block.new ≡ slice_set block.old (length block.old - 1 - self.old.noted) entry }
    {
        let length = block.len();
        block[length - 1 - self.noted] = entry;
        self.noted += 1;
    }

    // Whether n rows have places from `first` on, and room.
    fn can_note(&self, first: u32, n: usize, block: &[Entry]) -> bool
        ensures { result ≡ can_note first n self.now block.now }
    {
        n <= PLACES - first as usize && self.has_room(block, n)
    }

    // Notes n buffered rows, from place `first` on.
    pub fn note_rows(
        &mut self,
        kind: Kind,
        first: u32,
        n: usize,
        block: &mut [Entry],
    ) -> Result<(), Refused>
        ensures { Step (can_note first n self.old block.old) (noting kind first n) self.old block.old result self.new block.new }
    {
        if !self.can_note(first, n, block) {
            return Err(Refused);
        }
        // how many are noted is counted from 0; a loop over their places would say it by a difference
        for i in 0..n {
            let place = (first as usize + i) as u32;
            self.note(block, Entry::lone(buffered_record(kind, place)));
        }
        Ok(())
    }

    // Whether the batch can leave; `most` rows of it can be listed besides those noted.
    fn can_leave(&self, batch: Leaving, most: usize, block: &[Entry]) -> bool
        ensures { result ≡ (self.now.unfrozen == 0 && (nat_le (batch.first + batch.rows) places && has_room most self.now block.now)) }
    {
        self.unfrozen == 0
            && batch.rows as usize <= PLACES - batch.first as usize
            && self.has_room(block, most)
    }

    // A batch leaves: its noted rows enter the frozen, then, in a full join, its rows whose pairs all failed.
    pub fn leave(
        &mut self,
        kind: Kind,
        full: bool,
        batch: Leaving,
        states: &States,
        block: &mut [Entry],
    ) -> Result<(), Refused>
        ensures { Step (can_leave full batch.first batch.rows batch.keep self.old block.old) (leave kind full batch.first batch.rows batch.keep (take batch.rows (drop batch.from (states_of states.now)))) self.old block.old result self.new block.new }
    {
        let Queue { frozen, noted, .. } = *self;
        let out = noted.saturating_sub(batch.keep);
        let most = most_failed(full, batch.rows, out);
        if !self.can_leave(batch, most, block) {
            return Err(Refused);
        }
        bring_oldest(block, frozen, noted, out);
        let from = frozen + out;
        let failed = list_failed(kind, batch, states, &mut block[from..from + most]);
        self.frozen = from + failed;
        self.noted = noted - out;
        Ok(())
    }
}

#[cfg(test)]
mod tests;
