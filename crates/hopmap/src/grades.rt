ghost use Rattle.std.specs.Prelude.{◌≡◌, IfOk};
ghost use Rattle.hopmap.specs.Fetching.{all_rows};
ghost use Rattle.hopmap.specs.Summaries.{summary_of};
ghost use Rattle.hopmap.specs.GradeCounts.{no_rows, counted, counted_rows, grades_of};

use crate::fetch::fetch;
use crate::key_kinds::{LogKind, told_kind};
use crate::lines::Summary;
use crate::totals::Totals;
use filters::grade::grade;
use rows::row::Row;
use sources::kind::{Frames, Labels};
use sources::log::Log;
use sources::source::Source;
use std::alloc::{AllocError, Global};

// How many rows have each grade, and how many are not measured; a count stays at the largest number of 64 bits.
#[derive(Clone, Copy, Default)]
pub struct GradeCounts {
    // of grade 1 at 0, up to grade 5 at 4
    pub graded: [u64; 5],
    pub not_measured: u64,
}

impl GradeCounts {
    // With one row more, of this level.
    pub fn and_level(mut self, level: i8) -> GradeCounts
        ensures { result ≡ counted self level }
    {
        match grade(level) {
            Some(g) => {
                let i = g as usize - 1;
                self.graded[i] = self.graded[i].saturating_add(1);
            }
            None => self.not_measured = self.not_measured.saturating_add(1),
        }
        self
    }

    // With rows more.
    pub fn and_rows<K>(self, rows: &[Row<K>]) -> GradeCounts
        ensures { result ≡ counted_rows self rows.now }
    {
        rows.iter()
            .fold(self, |counts, row| counts.and_level(row.reading.level))
    }
}

// Counts the rows of a source by grade.
fn count_source<S: Source>(
    heap: Global,
    source: &mut S,
) -> Result<(GradeCounts, Summary), AllocError>
where
    S::Key: Copy + Default,
    ensures { IfOk result (λ found. found ≡ (counted_rows no_rows (all_rows (S.Source.batches source.old)), summary_of (S.Source.batches source.old) (S.Source.closing source.old))) }
{
    let mut batch = Vec::new(heap);
    let mut counts = GradeCounts::default();
    let mut totals = Totals::default();
    let closing = loop {
        match fetch(source, &mut batch)? {
            Ok(Some(n)) => {
                counts = counts.and_rows(&batch);
                totals = totals.and_batch(n);
            }
            Ok(None) => break Ok(()),
            Err(fault) => break Err(fault),
        }
    };
    Ok((counts, Summary { totals, closing }))
}

// Counts the rows of a log by grade. A log that tells no kind of key has the same fault for either.
pub fn count_grades(heap: Global, bytes: &[u8]) -> Result<(GradeCounts, Summary), AllocError>
    ensures { IfOk result (λ found. found ≡ grades_of bytes.now) }
{
    // the bytes pick the type, so each kind has an arm
    match told_kind(bytes).unwrap_or(LogKind::Frame) {
        LogKind::Label => count_source(heap, &mut Log::new(bytes, Labels)),
        LogKind::Frame => count_source(heap, &mut Log::new(bytes, Frames)),
    }
}
