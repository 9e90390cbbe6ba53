ghost use Rattle.std.specs.Prelude.{◌≡◌, ◌+◌, if◌then◌else◌, is_ok, nat_le};
ghost use Rattle.pipeline.specs.Held.{longer, begun, is_consumed};

use crate::refused::Refused;

// A held batch and its range in the run.
#[derive(Clone, Copy, PartialEq, Eq, Debug)]
pub struct BufferedBatch {
    pub rows: u32,
    pub start: u32,
    pub end: u32,
}

impl BufferedBatch {
    pub const MOST_ROWS: u32 = u32::MAX;

    // A batch none of whose rows is in a run.
    pub fn new(rows: u32) -> BufferedBatch
        ensures { result ≡ record { rows = rows; start = 0; end = 0 } }
    {
        BufferedBatch {
            rows,
            start: 0,
            end: 0,
        }
    }

    // The range goes on for more rows, where it fits.
    pub(crate) fn extend(&mut self, more: u32) -> Result<(), Refused>
        ensures answer { is_ok result ≡ nat_le (self.old.end + more) 4294967295 }
        ensures left { self.new ≡ (if is_ok result then longer more self.old else self.old) }
    {
        if more > Self::MOST_ROWS - self.end {
            return Err(Refused);
        }
        self.end += more;
        Ok(())
    }

    // The range begins anew behind its end, with one row, where it fits.
    pub(crate) fn advance(&mut self) -> Result<(), Refused>
        ensures answer { is_ok result ≡ nat_le (self.old.end + 1) 4294967295 }
        ensures left { self.new ≡ (if is_ok result then begun self.old else self.old) }
    {
        if self.end == Self::MOST_ROWS {
            return Err(Refused);
        }
        self.start = self.end;
        self.end += 1;
        Ok(())
    }

    // Whether its last row was in a run.
    pub fn is_consumed(&self) -> bool
        ensures { result ≡ is_consumed self.now }
    {
        self.end == self.rows
    }
}
