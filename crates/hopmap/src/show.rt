ghost use Rattle.std.specs.Prelude.{◌≡◌, IfOk};
ghost use Rattle.sources.specs.Log.{log_closing};
ghost use Rattle.hopmap.specs.Shows.{shown_of, closing_of};

use crate::fetch::fetch;
use crate::key_kinds::{LogKey, LogKind, told_kind};
use crate::lines::{BatchLine, RowLine, SequenceLine, Summary};
use crate::sequence::Sequence;
use crate::settings::Settings;
use crate::totals::Totals;
use rows::order::KeyOrder;
use rows::row::Row;
use sources::clock::Clock;
use sources::kind::{Frames, Labels};
use sources::log::Log;
use sources::source::{Closing, Source};
use std::alloc::Global;
use std::fmt::Display;
use std::io;
use std::io::Write;

// Writes a line for each row; the first has this place.
fn show_rows<K: Copy + Display, W: Write>(
    out: &mut W,
    first: u64,
    rows: &[Row<K>],
) -> io::Result<()> {
    for (i, row) in rows.iter().enumerate() {
        let line = RowLine {
            place: first.saturating_add(i as u64),
            row: *row,
        };
        writeln!(out, "{line}")?;
    }
    Ok(())
}

// What was found of a source that was shown: how much came, how it closes, and the first place whose row is before its
// predecessor, if there is one.
#[derive(Clone, Copy)]
struct Shown {
    summary: Summary,
    broken: Option<u64>,
}

// Writes a line for each batch and each row of a source, and then how much came and how it closes.
fn show_source<S: Source, O: KeyOrder<Key = S::Key>, W: Write>(
    heap: Global,
    out: &mut W,
    source: &mut S,
    order: &O,
) -> io::Result<Shown>
where
    S::Key: Copy + Default + Display,
    ensures { IfOk result (λ shown. shown ≡ shown_of (O.KeyOrder.within order.now) (S.Source.batches source.old) (S.Source.closing source.old)) }
{
    let mut batch = Vec::new(heap);
    let mut totals = Totals::default();
    let mut sequence = Sequence::new();
    let closing = loop {
        match fetch(source, &mut batch)? {
            Ok(Some(n)) => {
                let line = BatchLine {
                    number: totals.batches,
                    rows: n,
                };
                writeln!(out, "{line}")?;
                show_rows(out, totals.rows, &batch)?;
                sequence = sequence.and_rows(order, &batch);
                totals = totals.and_batch(n);
            }
            Ok(None) => break Ok(()),
            Err(fault) => break Err(fault),
        }
    };
    let summary = Summary { totals, closing };
    writeln!(out, "{summary}")?;
    Ok(Shown {
        summary,
        broken: sequence.broken(),
    })
}

// Shows a log of a kind of key with its moments moved, and last whether its rows are in key order.
fn show_log<L: LogKey, W: Write>(
    heap: Global,
    out: &mut W,
    kind: L,
    bytes: &[u8],
    settings: &Settings,
) -> io::Result<Closing>
where
    L::Key: Default + Display,
    ensures { IfOk result (λ closing. closing ≡ log_closing L.layout bytes.now) }
{
    let mut moved = Clock::new(Log::new(bytes, kind), settings.clock);
    let shown = show_source(heap, out, &mut moved, &L::order(settings))?;
    let line = SequenceLine(shown.broken);
    writeln!(out, "{line}")?;
    Ok(shown.summary.closing)
}

// Shows the bytes of a log of either kind of key.
pub fn show<W: Write>(
    heap: Global,
    out: &mut W,
    bytes: &[u8],
    settings: &Settings,
) -> io::Result<Closing>
    ensures { IfOk result (λ closing. closing ≡ closing_of bytes.now) }
{
    // the bytes pick the type, so each kind has an arm
    match told_kind(bytes) {
        Some(LogKind::Frame) => {
            writeln!(out, "frame log")?;
            show_log(heap, out, Frames, bytes, settings)
        }
        Some(LogKind::Label) => {
            writeln!(out, "label log")?;
            show_log(heap, out, Labels, bytes, settings)
        }
        None => {
            writeln!(out, "no log")?;
            // read for either kind of key, it has the same fault
            let mut log = Log::new(bytes, Frames);
            let shown = show_source(heap, out, &mut log, &Frames::order(settings))?;
            Ok(shown.summary.closing)
        }
    }
}
