ghost use Rattle.std.specs.Prelude.{◌≡◌, take, drop};
ghost use Rattle.pipeline.specs.Held.{same_run, AllSame, Differs, GoesOn};

use rows::order::KeyOrder;
use rows::row::Row;

// Reads a run: how many of the first rows have a key that is same within as the given one. They are the longest such stretch,
// and where they are all rows, the run goes on with the next batch.
pub fn same_from<O: KeyOrder>(order: &O, key: &O::Key, rows: &[Row<O::Key>]) -> usize
    ensures value { result ≡ same_run (O.KeyOrder.within order.now) key.now rows.now }
    ensures same { AllSame (O.KeyOrder.within order.now) key.now (take result rows.now) }
    ensures longest { Differs (O.KeyOrder.within order.now) key.now (drop result rows.now) }
    ensures onward { GoesOn (O.KeyOrder.within order.now) key.now rows.now result }
{
    // By cases, and not by `unwrap_or`: an edit of one case is then refused for the value that it answers.
    match rows
        .iter()
        .position(|row| order.compare_within(key, &row.key).is_ne())
    {
        Some(i) => i,
        None => rows.len(),
    }
}
