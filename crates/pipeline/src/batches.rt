ghost use Rattle.std.specs.Prelude.{◌≡◌, length, take, if◌then◌else◌, is_ok};
ghost use Rattle.pipeline.specs.Batches.{rows_of};
ghost use Rattle.pipeline.specs.Held.{holding, empty, can_push, pushed, can_extend, extended, can_seed, seeded, passed, matching, leaving, can_dequeue, dequeued};

use crate::batch::BufferedBatch;
use crate::held::BufferedData;
use crate::refused::Refused;

impl BufferedData {
    pub const MOST_BATCHES: usize = 64;

    pub const MOST_ROWS: usize = 16_777_215;

    pub fn new() -> BufferedData
        ensures { holding result ≡ empty }
    {
        BufferedData {
            batches: [BufferedBatch::new(0); 64],
            count: 0,
            base: 0,
            held: 0,
            start: 0,
            end: 0,
            matched: false,
        }
    }

    // One batch more, behind those held; refused where there are 64, or its places would not fit.
    pub fn push(&mut self, rows: usize) -> Result<(), Refused>
        ensures answer { is_ok result ≡ can_push rows (holding self.old) }
        ensures left { holding self.new ≡ (if is_ok result then pushed rows (holding self.old) else holding self.old) }
    {
        let read = self.base as usize + self.held;
        if self.count == Self::MOST_BATCHES || rows > Self::MOST_ROWS - read {
            return Err(Refused);
        }
        self.batches[self.count] = BufferedBatch::new(rows as u32);
        self.count += 1;
        self.held += rows;
        Ok(())
    }

    // The run goes on for more rows of the last batch. It does not end with its batch: after a further `push` it can go on.
    pub fn extend(&mut self, more: usize) -> Result<(), Refused>
        ensures answer { is_ok result ≡ can_extend more (holding self.old) }
        ensures left { holding self.new ≡ (if is_ok result then extended more (holding self.old) else holding self.old) }
    {
        if self.count == 0 || more > self.held - self.end {
            return Err(Refused);
        }
        let tail = self.count - 1;
        self.batches[tail].extend(more as u32)?;
        self.end += more;
        Ok(())
    }

    // The next run begins with the first row that no run has held; refused where there is none.
    pub fn seed(&mut self) -> Result<(), Refused>
        ensures answer { is_ok result ≡ can_seed (holding self.old) }
        ensures left { holding self.new ≡ (if is_ok result then seeded (holding self.old) else holding self.old) }
    {
        if self.count == 0 || self.end == self.held {
            return Err(Refused);
        }
        let tail = self.count - 1;
        self.batches[tail].advance()?;
        let first = self.end;
        self.start = first;
        self.end = first + 1;
        self.matched = false;
        Ok(())
    }

    // The run is passed.
    pub fn pass(&mut self)
        ensures { holding self.new ≡ passed (holding self.old) }
    {
        self.start = self.end;
        self.matched = false;
    }

    // A streamed row was paired with the run.
    pub fn mark_matched(&mut self)
        ensures { holding self.new ≡ matching (holding self.old) }
    {
        self.matched = true;
    }

    // How many batches leave: the consumed ones up to the first that is not.
    pub fn leaving(&self) -> usize
        ensures { result ≡ length (leaving (holding self.now).batches) }
    {
        // By cases, and not by `unwrap_or`: an edit of one case is then refused for the value that it answers.
        match self.batches[..self.count]
            .iter()
            .position(|batch| !batch.is_consumed())
        {
            Some(i) => i,
            None => self.count,
        }
    }

    // The rows of the first k batches, or of all where they are fewer.
    pub fn rows_of(&self, k: usize) -> usize
        ensures { result ≡ rows_of (take k (holding self.now).batches) }
    {
        self.batches[..k.min(self.count)]
            .iter()
            .map(|batch| batch.rows as usize)
            .sum()
    }

    // The first k batches are no longer held, and the rows after them move to the table's start; refused where there are not
    // so many, or one of their rows is in the run.
    pub fn dequeue(&mut self, k: usize) -> Result<(), Refused>
        ensures answer { is_ok result ≡ can_dequeue k (holding self.old) }
        ensures left { holding self.new ≡ (if is_ok result then dequeued k (holding self.old) else holding self.old) }
    {
        let rows = self.rows_of(k);
        if k > self.count || rows > self.start {
            return Err(Refused);
        }
        let count = self.count;
        self.batches.copy_within(k..count, 0);
        self.count -= k;
        self.base += rows as u32;
        self.held -= rows;
        self.start -= rows;
        self.end -= rows;
        Ok(())
    }
}

#[cfg(test)]
mod tests {
    use super::*;

    #[test]
    fn holds_sixty_four_batches(rt: HostRuntime) {
        let mut data = BufferedData::new();
        for _ in 0..BufferedData::MOST_BATCHES {
            assert_eq!(rt; data.push(1), Ok(()));
        }
        assert_eq!(rt; data.push(1), Err(Refused));
        assert_eq!(rt; data.held, 64);
    }

    #[test]
    fn holds_rows_up_to_the_last_place(rt: HostRuntime) {
        let mut data = BufferedData::new();
        assert_eq!(rt; data.push(BufferedData::MOST_ROWS - 1), Ok(()));
        assert_eq!(rt; data.push(2), Err(Refused));
        assert_eq!(rt; data.push(1), Ok(()));
        assert_eq!(rt; data.push(1), Err(Refused));
        assert_eq!(rt; data.held, BufferedData::MOST_ROWS);
    }

    // two rows of the first batch, the only one of the second, and one of two of the third
    #[test]
    fn reads_a_run_over_three_batches(rt: HostRuntime) {
        let mut data = BufferedData::new();
        assert_eq!(rt; data.push(2), Ok(()));
        assert_eq!(rt; data.seed(), Ok(()));
        assert_eq!(rt; data.extend(1), Ok(()));
        assert_eq!(rt; data.extend(1), Err(Refused), "its batch has no row more");
        assert_eq!(rt; data.push(1), Ok(()));
        assert_eq!(rt; data.extend(1), Ok(()));
        assert_eq!(rt; data.push(2), Ok(()));
        assert_eq!(rt; data.extend(1), Ok(()));
        assert_eq!(rt; data.end - data.start, 4);
        assert_eq!(rt; data.leaving(), 2);
        assert_eq!(rt; data.dequeue(2), Err(Refused), "the run is not passed");
        data.pass();
        assert_eq!(rt; data.dequeue(2), Ok(()));
        assert_eq!(rt; data.base, 3);
        assert_eq!(rt; data.held, 2);
        assert_eq!(rt; data.seed(), Ok(()));
        assert_eq!(rt; data.start, 1);
        assert_eq!(rt; data.leaving(), 1);
    }

    #[test]
    fn reads_a_run_of_one_row(rt: HostRuntime) {
        let mut data = BufferedData::new();
        assert_eq!(rt; data.seed(), Err(Refused), "no row is held");
        assert_eq!(rt; data.push(1), Ok(()));
        assert_eq!(rt; data.leaving(), 0);
        assert_eq!(rt; data.seed(), Ok(()));
        data.mark_matched();
        assert!(rt; data.matched);
        data.pass();
        assert!(rt; !data.matched);
        assert_eq!(rt; data.seed(), Err(Refused), "the only row was in a run");
        assert_eq!(rt; data.dequeue(1), Ok(()));
        assert_eq!(rt; data.held, 0);
        assert_eq!(rt; data.base, 1);
    }
}
