ghost use Rattle.std.specs.Prelude.{◌≡◌, None as Nothing, ◌≢◌};
ghost use Rattle.join.specs.declared.phase.Phase.TheVariants.{Turning};
ghost use Rattle.machine.specs.Machine.{Setting};
ghost use Rattle.join.specs.Shows.{Memory, FitsTables, FitsMemory, compared_as};

use crate::phase::Phase;
use crate::state::Join;
use rows::order::KeyOrder;
use rows::row::Row;
use std::cmp::Ordering;

impl<K: Copy> Join<K> {
    // How the streamed row compares with the run: streamed ended is after, no buffered rows is before. None while no turn is
    // due, and when the block has to be emptied first. The tables are two slices here and below: a load writes one of them alone.
    pub(crate) fn compare<O: KeyOrder<Key = K>>(
        &self,
        order: &O,
        streamed: &[Row<K>],
        buffered: &[Row<K>],
    ) -> Option<Ordering>
        requires { FitsTables self.now.limits streamed.now buffered.now }
        ensures turning { self.now.phase ≡ Turning → (c : Setting K) (m : Memory K) → FitsMemory self.now.limits m → c.size ≡ self.now.limits.batch → c.across ≡ O.KeyOrder.across order.now → m.streamed ≡ streamed.now → m.buffered ≡ buffered.now → result ≡ compared_as c self.now m }
        ensures otherwise { (self.now.phase ≢ Turning) → result ≡ Nothing }
    {
        let Phase::Turning = self.phase else {
            return None;
        };
        if self.queue.frozen + self.queue.unfrozen >= self.limits.batch {
            return None;
        }
        let at = self.streamed.at;
        let start = self.buffered.start;
        if at >= self.streamed.rows {
            return Some(Ordering::Greater);
        }
        if start >= self.buffered.end {
            return Some(Ordering::Less);
        }
        Some(order.compare_across(&streamed[at].key, &buffered[start].key))
    }
}
