ghost use Rattle.std.specs.Prelude.{◌≡◌, IfOk};
ghost use Rattle.hopmap.specs.Fetching.{all_rows};

use crate::fetch::fetch;
use rows::row::Row;
use sources::source::{Closing, Source};
use std::alloc::{AllocError, Global};

// The rows of a source, of all its batches, and how it closes.
#[derive(Drop)]
pub struct Loaded<K: Drop> {
    pub rows: Vec<Row<K>>,
    pub closing: Closing,
}

// Takes all batches of a source.
pub fn load<S: Source>(heap: Global, source: &mut S) -> Result<Loaded<S::Key>, AllocError>
where
    S::Key: Copy + Default,
    ensures rows { IfOk result (λ loaded. loaded.rows.items ≡ all_rows (S.Source.batches source.old)) }
    ensures closing { IfOk result (λ loaded. loaded.closing ≡ S.Source.closing source.old) }
{
    let mut batch = Vec::new(heap);
    let mut rows = Vec::new(heap);
    let closing = loop {
        match fetch(source, &mut batch)? {
            Ok(Some(_)) => rows.extend_from_slice(&batch)?,
            Ok(None) => break Ok(()),
            Err(fault) => break Err(fault),
        }
    };
    Ok(Loaded { rows, closing })
}
