ghost use Rattle.orders.specs.Chain.{chained};
ghost use Rattle.orders.specs.ChainLaws.{chain_laws};

use rows::order::KeyOrder;
use std::cmp::Ordering;

// Asks one order and, where it answers same, another.
#[derive(Clone, Copy)]
pub struct Chain<P, Q> {
    pub first: P,
    pub second: Q,
}

impl<P: KeyOrder, Q: KeyOrder<Key = P::Key>> KeyOrder for Chain<P, Q> {
    type Key = P::Key;

    ghost within = { λ o. chained (P.KeyOrder.within o.first) (Q.KeyOrder.within o.second) };

    ghost across = { λ o. chained (P.KeyOrder.across o.first) (Q.KeyOrder.across o.second) };

    ghost lawful = { λ o. chain_laws (P.KeyOrder.within o.first) (P.KeyOrder.across o.first) (Q.KeyOrder.within o.second) (Q.KeyOrder.across o.second) (P.KeyOrder.lawful o.first) (Q.KeyOrder.lawful o.second) };

    // within and across are two questions to an order, each asked of both
    fn compare_within(&self, a: &P::Key, b: &P::Key) -> Ordering {
        self.first
            .compare_within(a, b)
            .then_with(|| self.second.compare_within(a, b))
    }

    fn compare_across(&self, streamed: &P::Key, buffered: &P::Key) -> Ordering {
        self.first
            .compare_across(streamed, buffered)
            .then_with(|| self.second.compare_across(streamed, buffered))
    }
}
