ghost use Rattle.std.specs.Prelude.{◌≡◌, ◌≤◌, [], IfOk, vec_len, vec_capacity};
ghost use Rattle.sinks.specs.RecordLists.{Listed, list_fits, listed_after, ListGrows};

use crate::sink::{Sink, Unfit};
use rows::record::Record;
use std::alloc::{AllocError, Global};

// A list in memory of its own, reserved at the start.
#[derive(Drop)]
pub struct RecordList {
    items: Vec<Record>,
    // how many records fit, though the memory may have room for more
    room: usize,
    ghost reserved: { (vec_len items ≤ room) × (room ≤ vec_capacity items) },
}

impl RecordList {
    // An empty list with room for so many records.
    #[tactic(auto, using(crate::proofs::Laws::list_grows))]
    pub fn with_room(heap: Global, room: usize) -> Result<RecordList, AllocError>
        ensures empty { IfOk result (λ s. (s.items.items ≡ []) × (s.room ≡ room)) }
        ensures grows { ListGrows }
    {
        let items = Vec::with_capacity(heap, room)?;
        Ok(RecordList { items, room })
    }

    // The records taken, oldest first.
    pub fn records(&self) -> &[Record]
        ensures { result.now ≡ self.now.items.items }
    {
        self.items.as_slice()
    }

    pub fn room(&self) -> usize
        ensures { result ≡ self.now.room }
    {
        self.room
    }

    // Lets go of the records and keeps the room.
    pub fn clear(&mut self)
        ensures records { self.new.items.items ≡ [] }
        ensures room { self.new.room ≡ self.old.room }
    {
        self.items.clear();
    }
}

impl Sink for RecordList {
    ghost Value = { Listed };

    ghost value = { λ s. record { records = s.items.items; room = s.room } };

    ghost fitting = { list_fits };

    ghost after = { listed_after };

    fn fits(&self, _x: Record) -> bool {
        self.items.len() < self.room
    }

    fn take(&mut self, x: Record) -> Result<(), Unfit> {
        if self.items.len() >= self.room {
            return Err(Unfit);
        }
        self.items.push_reserved(x);
        Ok(())
    }
}
