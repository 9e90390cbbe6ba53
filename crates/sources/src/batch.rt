ghost use Rattle.std.specs.Prelude.{◌≡◌, ◌+◌, ◌<◌, ◌≤◌, ◌++◌, length, drop, MatchOption};
ghost use Rattle.sources.specs.Log.{commands};
ghost use Rattle.sources.specs.Coming.{Apart, Found, rows_in};

use crate::fault::SourceFault;
use crate::kind::KeyKind;
use rows::reading::Reading;
use rows::row::Row;

// The command bytes: constants and no enum, since a log is read by patterns over its bytes.
pub(crate) const HEADER: u8 = 0;

const ROW: u8 = 1;

const CLOSE: u8 = 2;

const END: u8 = 3;

// The bytes of a row beside its key: the command, the moment, the level and the receiver.
const BESIDE_KEY: usize = 8;

// A batch in a log.
#[derive(Clone, Copy)]
pub(crate) struct Batch<'a> {
    // the commands of its rows, all of them read and found good
    pub(crate) rows: &'a [u8],
    // the bytes after it
    pub(crate) rest: &'a [u8],
}

// What comes next in a log: a batch, or none at the end; or a fault.
pub(crate) type Coming<'a> = Result<Option<Batch<'a>>, SourceFault>;

// The operands of a row, taken apart, and the bytes after them.
#[derive(Clone, Copy)]
pub(crate) struct Operands<'a> {
    key: &'a [u8],
    reading: Reading,
    rest: &'a [u8],
}

// The operands that the bytes begin with; none where they run out.
fn take_apart<F: KeyKind>(bytes: &[u8]) -> Option<Operands<'_>>
    ensures { MatchOption result (length bytes.now < F.KeyKind.layout.width + 7) (λ row. Apart F.KeyKind.layout bytes.now row) }
{
    if bytes.len() < F::WIDTH {
        return None;
    }
    let (key, after) = bytes.split_at(F::WIDTH);
    let [a, b, c, d, level, e, f, rest @ ..] = after else {
        return None;
    };
    Some(Operands {
        key,
        reading: Reading::new(
            u32::from_be_bytes([*a, *b, *c, *d]),
            i8::from_be_bytes([*level]),
            u16::from_be_bytes([*e, *f]),
        ),
        rest,
    })
}

// What comes next in the last bytes of a log of so many bytes in total.
pub(crate) fn next_batch<F: KeyKind>(bytes: &[u8], total: usize) -> Coming<'_>
    requires { length bytes.now ≤ total }
    ensures { Found F.KeyKind.layout total (commands F.KeyKind.layout total 0 bytes.now) result }
{
    let mut rest = bytes;
    while let [command, after @ ..] = rest {
        let place = (total - rest.len()) as u64;
        let rows = &bytes[..bytes.len() - rest.len()];
        match *command {
            ROW => {
                let row = take_apart::<F>(after).ok_or(SourceFault::RunsOut(place))?;
                if !F::is_valid(row.key) {
                    return Err(SourceFault::BadPresence(place));
                }
                rest = row.rest;
            }
            CLOSE => return Ok(Some(Batch { rows, rest: after })),
            // the end stays, to be met again with no row before it
            END if !rows.is_empty() => return Ok(Some(Batch { rows, rest })),
            END if after.is_empty() => return Ok(None),
            END => return Err(SourceFault::BadCommand(place + 1)),
            _ => return Err(SourceFault::BadCommand(place)),
        }
    }
    Err(SourceFault::RunsOut(total as u64))
}

// How many rows the commands of a batch hold.
pub(crate) fn row_count<F: KeyKind>(rows: &[u8]) -> usize
    ensures { result ≡ length (rows_in F.KeyKind.layout rows.now) }
{
    rows.len() / (F::WIDTH + BESIDE_KEY)
}

// Writes a batch's rows to the start of the memory.
pub(crate) fn write_rows<F: KeyKind>(rows: &[u8], memory: &mut [Row<F::Key>])
    requires { length (rows_in F.KeyKind.layout rows.now) ≤ length memory.old }
    ensures { memory.new ≡ rows_in F.KeyKind.layout rows.now ++ drop (length (rows_in F.KeyKind.layout rows.now)) memory.old }
{
    let mut rest = rows;
    for slot in &mut memory[..row_count::<F>(rows)] {
        let [_, after @ ..] = rest else { unreachable() };
        let Some(row) = take_apart::<F>(after) else {
            unreachable()
        };
        *slot = Row {
            key: F::decode(row.key),
            reading: row.reading,
        };
        rest = row.rest;
    }
}
