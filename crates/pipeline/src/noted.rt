ghost use Rattle.std.specs.Prelude.{◌≡◌, ◌+◌, ◌-◌, ◌≤◌, ◌++◌, reverse, length, take, drop, if◌then◌else◌};
ghost use Rattle.pipeline.specs.Block.{all_failed, places};
ghost use Rattle.pipeline.specs.States.{states_of, failed};

use crate::entry::Entry;
use crate::orient::buffered_record;
use crate::states::{FilterState, States};
use rows::kind::Kind;

// A buffered batch that leaves: its rows have their places from `first` on and their states from `from` on. Of the rows
// noted, the `keep` latest are of later batches and stay.
#[derive(Clone, Copy, PartialEq, Eq, Debug)]
pub struct Leaving {
    pub first: u32,
    pub rows: u32,
    pub from: u32,
    pub keep: usize,
}

// Brings the noted, which stand at the end, the oldest last, in between the frozen and the unfrozen, the oldest first.
pub(crate) fn bring_in(block: &mut [Entry], frozen: usize, unfrozen: usize, noted: usize)
    requires { frozen + unfrozen + noted ≤ length block.old }
    ensures { block.new ≡ take frozen block.old ++ (reverse (drop (length block.old - noted) block.old) ++ (take unfrozen (drop frozen block.old) ++ drop (frozen + unfrozen + noted) block.old)) }
{
    let top = block.len();
    let mid = frozen + unfrozen;
    let end = mid + noted;
    block.copy_within(top - noted..top, mid);
    block[frozen..end].reverse();
    let mid = frozen + noted;
    block[mid..end].reverse();
}

// Brings the oldest `count` of the noted in behind the frozen, the oldest first; the others stay noted. Both ranges may
// overlap, so all of the noted move, and those that stay move back.
pub(crate) fn bring_oldest(block: &mut [Entry], frozen: usize, noted: usize, count: usize)
    requires { (frozen + noted ≤ length block.old) × (count ≤ noted) }
    ensures front { take (frozen + count) block.new ≡ take frozen block.old ++ take count (reverse (drop (length block.old - noted) block.old)) }
    ensures back { drop (length block.old - (noted - count)) block.new ≡ reverse (drop count (reverse (drop (length block.old - noted) block.old))) }
{
    let top = block.len();
    let all = frozen + noted;
    block.copy_within(top - noted..top, frozen);
    block[frozen..all].reverse();
    let mid = frozen + count;
    block[mid..all].reverse();
    block.copy_within(mid..all, top - (noted - count));
}

// How many rows of a leaving batch can be listed because their pairs all failed: those that are not noted, in a full join.
pub(crate) fn most_failed(full: bool, rows: u32, noted: usize) -> usize
    ensures { result ≡ (if full then rows - noted else 0) }
{
    if full {
        (rows as usize).saturating_sub(noted)
    } else {
        0
    }
}

fn is_failed(state: Option<FilterState>) -> bool
    ensures { result ≡ all_failed state }
{
    state == Some(FilterState::AllFailed)
}

// Writes the batch's rows whose pairs all failed, as many as there is room for, and answers how many those are.
pub(crate) fn list_failed(kind: Kind, batch: Leaving, states: &States, out: &mut [Entry]) -> usize
    requires { batch.first + batch.rows ≤ places }
    ensures front { take result out.new ≡ take (length out.old) (failed kind batch.first (take batch.rows (drop batch.from (states_of states.now)))) }
    ensures fits { result ≤ length out.old }
{
    // counted, since `out` may have less room; of a chain that writes `out` in a closure no clause says what it leaves
    let mut count = 0;
    for i in 0..batch.rows {
        if count == out.len() {
            return count;
        }
        if is_failed(states.get(batch.from as usize + i as usize)) {
            out[count] = Entry::lone(buffered_record(kind, batch.first + i));
            count += 1;
        }
    }
    count
}
