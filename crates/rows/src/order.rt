ghost use Rattle.std.specs.Prelude.{◌≡◌};
ghost use Rattle.std.specs.declared.cmp.Ordering.{Ordering as Compared};
ghost use Rattle.rows.specs.Order.{Laws};

use std::cmp::Ordering;

// How keys are ordered. Less is before, Equal is same, Greater is after; they rise in this sequence.
pub trait KeyOrder {
    type Key;

    // of any two keys
    ghost within: { Self → Self.Key → Self.Key → Compared };

    // of a streamed and a buffered key
    ghost across: { Self → Self.Key → Self.Key → Compared };

    // what every order keeps, and the join rests on: each order gives the proof of it
    ghost lawful: { (o : Self) → Laws (within o) (across o) };

    fn compare_within(&self, a: &Self::Key, b: &Self::Key) -> Ordering
        ensures { result ≡ within self.now a.now b.now };

    fn compare_across(&self, streamed: &Self::Key, buffered: &Self::Key) -> Ordering
        ensures { result ≡ across self.now streamed.now buffered.now };
}
