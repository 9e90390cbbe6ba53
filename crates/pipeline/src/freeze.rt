ghost use Rattle.std.specs.Prelude.{◌≡◌, length, take};
ghost use Rattle.pipeline.specs.Freezing.{asking, judged_all, passing, stays};
ghost use Rattle.pipeline.specs.States.{states_of, marking};

use crate::entry::Entry;
use crate::orient::partner_place;
use crate::states::States;
use filters::filter::{Filter, lets_through};
use rows::kind::Kind;

// What pairs are judged with: the filter, the kind of join, and the place of the first buffered row that has a state.
#[derive_where(Clone, Copy)]
pub struct Judge<'a, F> {
    pub filter: &'a Option<F>,
    pub kind: Kind,
    pub base: u32,
}

// Asks the filter of each pair, writes its verdict, and marks it with the pair's buffered row. Lone rows stay as they are.
pub fn freeze_entries<F: Filter>(judge: &Judge<F>, states: &mut States, entries: &mut [Entry])
    ensures entries { entries.new ≡ judged_all (asking F.Filter.says judge.now.filter.now) entries.old }
    ensures states { states_of states.new ≡ marking judge.now.kind judge.now.base (judged_all (asking F.Filter.says judge.now.filter.now) entries.old) (states_of states.old) }
{
    for entry in entries.iter_mut() {
        if entry.row.is_some() {
            let yes = lets_through(judge.filter, &entry.left, &entry.right);
            entry.verdict = Some(yes);
            let row = partner_place(judge.kind, entry.record).saturating_sub(judge.base);
            states.mark(row as usize, yes);
        }
    }
}

// An entry without verdict or with yes.
fn is_kept(verdict: Option<bool>) -> bool
    ensures { result ≡ stays verdict }
{
    verdict != Some(false)
}

// Moves lone rows and passing pairs to the front, and answers how many those are; the entries behind them are free.
pub fn keep_passing(entries: &mut [Entry]) -> usize
    ensures front { take result entries.new ≡ passing entries.old }
    ensures count { result ≡ length (passing entries.old) }
{
    let mut left = 0;
    // by index: an entry is written before the place where it is read; a loop shared with correction would need a state and a closure
    for i in 0..entries.len() {
        let entry = entries[i];
        if is_kept(entry.verdict) {
            entries[left] = entry;
            left += 1;
        }
    }
    left
}
