ghost use Rattle.std.specs.Prelude.{◌≡◌, IfOk, vec_items};
ghost use Rattle.sources.specs.Log.{log_batches, log_closing};
ghost use Rattle.hopmap.specs.Tables.{Loads, RefusesIn, RefusesLogs, refusal_of, table_in, table_of};
ghost use Rattle.hopmap.specs.declared.table.TableRefusal.TheVariants.{Memory};

use crate::key_kinds::{LogKey, LogKind, told_kind};
use crate::load::load;
use crate::settings::Settings;
use crate::wanted::filter_for;
use merge::nested_loops::{TableError, joined_table};
use rows::kind::Side;
use rows::record::Record;
use rows::row::Row;
use sources::fault::SourceFault;
use sources::kind::{Frames, Labels};
use sources::log::Log;
use std::alloc::{AllocError, Global};

// Why there is no table.
#[derive(Clone, Copy)]
pub enum TableRefusal {
    // a log has a fault
    Fault(Side, SourceFault),
    // a log has more rows than places can name
    TooLong,
    Memory,
}

impl From<AllocError> for TableRefusal {
    ghost from_gives = { λ _ r. r ≡ Memory };

    fn from(_e: AllocError) -> TableRefusal {
        TableRefusal::Memory
    }
}

impl From<TableError> for TableRefusal {
    ghost from_gives = { λ e r. r ≡ refusal_of e };

    fn from(e: TableError) -> TableRefusal {
        match e {
            TableError::TooLong => TableRefusal::TooLong,
            TableError::Memory => TableRefusal::Memory,
        }
    }
}

// The rows of the log on a side, if it has no fault.
fn rows_of<L: LogKey>(
    heap: Global,
    side: Side,
    kind: L,
    bytes: &[u8],
) -> Result<Vec<Row<L::Key>>, TableRefusal>
where
    L::Key: Default,
    ensures { Loads side (log_batches L.layout bytes.now) (log_closing L.layout bytes.now) vec_items result }
{
    let loaded = load(heap, &mut Log::new(bytes, kind))?;
    match loaded.closing {
        Ok(()) => Ok(loaded.rows),
        Err(fault) => Err(TableRefusal::Fault(side, fault)),
    }
}

// The joined table of two logs of a kind of key. The logs stand apart: they are read in turn, and a fault names its side.
fn table_of_logs<L: LogKey>(
    heap: Global,
    kind: L,
    sent: &[u8],
    heard: &[u8],
    settings: &Settings,
) -> Result<Vec<Record>, TableRefusal>
where
    L::Key: Default,
    ensures table { IfOk result (λ table. table.items ≡ table_in L.layout (L.Order.across (L.ordered settings.now)) settings.now sent.now heard.now) }
    ensures refusal { RefusesIn L.layout sent.now heard.now result }
{
    let left = rows_of(heap, Side::Left, kind, sent)?;
    let right = rows_of(heap, Side::Right, kind, heard)?;
    let order = L::order(settings);
    let filter = filter_for(settings.grade, settings.window);
    Ok(joined_table(
        heap,
        settings.kind,
        &order,
        &filter,
        left.as_slice(),
        right.as_slice(),
    )?)
}

// The joined table of two logs. The sent one tells the kind of key; if it tells none, it has a fault for either.
pub fn table(
    heap: Global,
    sent: &[u8],
    heard: &[u8],
    settings: &Settings,
) -> Result<Vec<Record>, TableRefusal>
    ensures table { IfOk result (λ table. table.items ≡ table_of settings.now sent.now heard.now) }
    ensures refusal { RefusesLogs sent.now heard.now result }
{
    // the bytes pick the type, so each kind has an arm
    match told_kind(sent).unwrap_or(LogKind::Frame) {
        LogKind::Frame => table_of_logs(heap, Frames, sent, heard, settings),
        LogKind::Label => table_of_logs(heap, Labels, sent, heard, settings),
    }
}
