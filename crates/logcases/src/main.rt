// Small logs, every cut of them and every byte of them changed to a few values, and what the log source says of each. What it
// has to say, in the file stdout, was worked out from the log format.
#![tactic(auto)]

use rows::key::FrameKey;
use rows::row::Row;
use sources::kind::{Frames, KeyKind, Labels};
use sources::log::Log;
use sources::source::{Source, TakeRefusal};
use std::fmt::Debug;
use std::io;

// more batches than any of these logs has
const LIMIT: u8 = 100;

// two rows, the second of a missing number; an empty batch; a row that the end closes
const FRAMES: [u8; 50] = [
    0x00, 0x01, //
    0x01, 0x00, 0x07, 0x01, 0x00, 0x00, 0x00, 0x01, 0x00, 0x00, 0x03, 0xe8, 0xc4, 0x00, 0x03, //
    0x01, 0x00, 0x07, 0x00, 0x00, 0x00, 0x00, 0x00, 0x00, 0x00, 0x07, 0xd0, 0x80, 0x00, 0x03, //
    0x02, //
    0x02, //
    0x01, 0x12, 0x34, 0x01, 0x89, 0xab, 0xcd, 0xef, 0xff, 0xff, 0xff, 0xff, 0x7f, 0xfe, 0xdc, //
    0x03,
];

// a label; a missing one, closed by 02; the end
const LABELS: [u8; 47] = [
    0x00, 0x02, //
    0x01, 0x01, 0x00, 0x01, 0x02, 0x03, 0x04, 0x05, 0x06, 0x07, 0x08, 0x09, 0x0a, 0xff, 0x00, 0x00,
    0x00, 0x05, 0xb5, 0x00, 0x09, //
    0x02, //
    0x01, 0x00, 0x00, 0x00, 0x00, 0x00, 0x00, 0x00, 0x00, 0x00, 0x00, 0x00, 0x00, 0x00, 0x00, 0x00,
    0x00, 0x06, 0x00, 0x00, 0x01, //
    0x02, 0x03,
];

const VALUES: [u8; 5] = [0, 1, 2, 3, 255];

// What a source says until it closes or refuses.
fn say<S: Source>(rt: &HostRuntime, source: &mut S, memory: &mut [Row<S::Key>]) -> io::Result<()> {
    for _ in 0..LIMIT {
        match source.take(memory) {
            Ok(Some(n)) => print!(rt; " batch of {n},")?,
            Ok(None) => return println!(rt; " end"),
            Err(TakeRefusal::TooShort) => return println!(rt; " too short"),
            Err(TakeRefusal::Fault(fault)) => {
                let number = fault.number();
                let layer = fault.layer();
                let place = fault.place();
                return println!(rt; " fault {number} layer {layer} place {place}");
            }
        }
    }
    println!(rt; " more")
}

// A cut is told by its length, so the loop is over lengths.
fn say_cuts<F: KeyKind + Copy>(
    rt: &HostRuntime,
    bytes: &[u8],
    kind: F,
    memory: &mut [Row<F::Key>],
) -> io::Result<()> {
    for n in 0..=bytes.len() {
        print!(rt; "{n} bytes:")?;
        say(rt, &mut Log::new(&bytes[..n], kind), memory)?;
    }
    Ok(())
}

// The place of the changed byte is told, and a copy is changed there, so the loop is over places.
fn say_changes<F: KeyKind + Copy, const N: usize>(
    rt: &HostRuntime,
    bytes: &[u8; N],
    kind: F,
    memory: &mut [Row<F::Key>],
) -> io::Result<()> {
    for i in 0..N {
        let mut changed = *bytes;
        for value in VALUES {
            changed[i] = value;
            print!(rt; "byte {i} is {value}:")?;
            say(rt, &mut Log::new(&changed, kind), memory)?;
        }
    }
    Ok(())
}

fn say_rows<S: Source>(
    rt: &HostRuntime,
    source: &mut S,
    memory: &mut [Row<S::Key>],
) -> io::Result<()>
where
    S::Key: Debug,
{
    for _ in 0..LIMIT {
        let Ok(Some(n)) = source.take(memory) else {
            return Ok(());
        };
        for row in memory.iter().take(n) {
            println!(rt; "{row:?}")?;
        }
    }
    Ok(())
}

// A few logs of frame keys, by name.
fn say_named(
    rt: &HostRuntime,
    name: &str,
    bytes: &[u8],
    memory: &mut [Row<FrameKey>],
) -> io::Result<()> {
    print!(rt; "{name}:")?;
    say(rt, &mut Log::new(bytes, Frames), memory)
}

fn say_short(rt: &HostRuntime, memory: &mut [Row<FrameKey>; 4]) -> io::Result<()> {
    let mut log = Log::new(&FRAMES, Frames);
    print!(rt; "one row of memory:")?;
    say(rt, &mut log, &mut memory[..1])?;
    print!(rt; "four rows, the same log:")?;
    say(rt, &mut log, memory)?;
    print!(rt; "once more:")?;
    say(rt, &mut log, memory)
}

fn say_few(rt: &HostRuntime, memory: &mut [Row<FrameKey>]) -> io::Result<()> {
    say_named(rt, "only the end", &[0, 1, 3], memory)?;
    say_named(rt, "empty batches", &[0, 1, 2, 2, 3], memory)?;
    say_named(rt, "no end", &[0, 1, 2], memory)?;
    say_named(rt, "a byte after the end", &[0, 1, 2, 3, 3], memory)?;
    say_named(rt, "a later header", &[0, 1, 2, 0, 1, 3], memory)?;
    say_named(rt, "cut in a bad key", &[0, 1, 1, 0, 7, 9], memory)
}

// The rows of a log, and what is said of each cut and each change of it. What is shown is handed on piece by piece: a struct of
// it would be taken apart at once.
fn say_log<F: KeyKind + Copy, const N: usize>(
    rt: &HostRuntime,
    bytes: &[u8; N],
    kind: F,
    memory: &mut [Row<F::Key>],
) -> io::Result<()>
where
    F::Key: Debug,
{
    say_rows(rt, &mut Log::new(bytes, kind), memory)?;
    say_cuts(rt, bytes, kind, memory)?;
    say_changes(rt, bytes, kind, memory)
}

fn main(rt: HostRuntime) -> io::Result<()> {
    let mut memory = [Row::default(); 4];
    println!(rt; "frame keys")?;
    say_log(&rt, &FRAMES, Frames, &mut memory)?;
    say_short(&rt, &mut memory)?;
    say_few(&rt, &mut memory)?;
    let mut memory = [Row::default(); 4];
    println!(rt; "label keys")?;
    say_log(&rt, &LABELS, Labels, &mut memory)
}
