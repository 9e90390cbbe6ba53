ghost use Rattle.std.specs.Prelude.{◌≡◌};
ghost use Rattle.hopmap.specs.Totals.{with_batch};

// How much has come of a source; a count that would pass 64 bits stays at their largest number.
#[derive(Clone, Copy, Default)]
pub struct Totals {
    pub batches: u64,
    pub rows: u64,
}

impl Totals {
    // With one batch more, of so many rows.
    pub fn and_batch(self, rows: usize) -> Totals
        ensures { result ≡ with_batch self rows }
    {
        Totals {
            batches: self.batches.saturating_add(1),
            rows: self.rows.saturating_add(rows as u64),
        }
    }
}
