ghost use Rattle.std.specs.Prelude.{◌≡◌};
ghost use Rattle.hopmap.specs.Sequences.{no_keys, checked, checked_rows};

use rows::order::KeyOrder;
use rows::row::Row;

// Whether keys that come one by one are in key order.
#[derive(Clone, Copy)]
pub struct Sequence<K> {
    last: Option<K>,
    // how many keys came; it stays at the largest number of 64 bits
    count: u64,
    // the first place whose key is before its predecessor
    broken: Option<u64>,
}

impl<K: Copy> Sequence<K> {
    pub fn new() -> Sequence<K>
        ensures { result ≡ no_keys }
    {
        Sequence {
            last: None,
            count: 0,
            broken: None,
        }
    }

    // The first place whose key is before its predecessor.
    pub fn broken(&self) -> Option<u64>
        ensures { result ≡ self.now.broken }
    {
        self.broken
    }

    // With one key more.
    pub fn and_key<O: KeyOrder<Key = K>>(self, order: &O, key: K) -> Sequence<K>
        ensures { result ≡ checked (O.KeyOrder.within order.now) self key }
    {
        let broken = match (self.broken, self.last) {
            (None, Some(last)) if order.compare_within(&last, &key).is_gt() => Some(self.count),
            (broken, _) => broken,
        };
        Sequence {
            last: Some(key),
            count: self.count.saturating_add(1),
            broken,
        }
    }

    // With the keys of rows more.
    pub fn and_rows<O: KeyOrder<Key = K>>(self, order: &O, rows: &[Row<K>]) -> Sequence<K>
        ensures { result ≡ checked_rows (O.KeyOrder.within order.now) self rows.now }
    {
        rows.iter()
            .fold(self, |sequence, row| sequence.and_key(order, row.key))
    }
}
