use rows::order::KeyOrder;
use std::fmt;

// How often a law was asked, and how often it was kept.
#[derive(Clone, Copy, Default)]
pub struct Tally {
    asked: u32,
    kept: u32,
}

impl Tally {
    fn note(&mut self, kept: bool) {
        self.asked = self.asked.saturating_add(1);
        if kept {
            self.kept = self.kept.saturating_add(1);
        }
    }
}

impl fmt::Display for Tally {
    fn fmt<W: fmt::Write>(&self, f: &mut fmt::Formatter<W>) -> fmt::Result {
        let asked = self.asked;
        let kept = self.kept;
        write!(f, "{kept} of {asked}")
    }
}

// How an order keeps each of its laws.
#[derive(Clone, Copy, Default)]
pub struct LawTallies {
    turns_round: Tally,
    passes_on: Tally,
    rises_streamed: Tally,
    falls_buffered: Tally,
    same_is_same: Tally,
}

impl fmt::Display for LawTallies {
    fn fmt<W: fmt::Write>(&self, f: &mut fmt::Formatter<W>) -> fmt::Result {
        let turns = self.turns_round;
        let passes = self.passes_on;
        let rises = self.rises_streamed;
        let falls = self.falls_buffered;
        let same = self.same_is_same;
        write!(f, "turns round {turns}, passes on {passes}, ")?;
        write!(
            f,
            "rises streamed {rises}, falls buffered {falls}, same is same {same}"
        )
    }
}

// A law is asked of an order and of single keys, which stand apart as they do in the law.

fn turns_round<O: KeyOrder>(order: &O, a: &O::Key, b: &O::Key) -> bool {
    order.compare_within(b, a) == order.compare_within(a, b).reverse()
}

fn passes_on<O: KeyOrder>(order: &O, a: &O::Key, b: &O::Key, c: &O::Key) -> bool {
    order.compare_within(a, b).is_gt()
        || order.compare_within(b, c).is_gt()
        || !order.compare_within(a, c).is_gt()
}

// Two laws, though they look alike: one is of two streamed keys, one of two buffered keys. Less, Equal and Greater rise in
// this sequence.

// of streamed keys a and c and a buffered key b
fn rises_streamed<O: KeyOrder>(order: &O, a: &O::Key, c: &O::Key, b: &O::Key) -> bool {
    order.compare_within(a, c).is_gt() || order.compare_across(a, b) <= order.compare_across(c, b)
}

// of a streamed key a and buffered keys b and c
fn falls_buffered<O: KeyOrder>(order: &O, a: &O::Key, b: &O::Key, c: &O::Key) -> bool {
    order.compare_within(b, c).is_gt() || order.compare_across(a, c) <= order.compare_across(a, b)
}

fn same_is_same<O: KeyOrder>(order: &O, a: &O::Key, b: &O::Key) -> bool {
    order.compare_across(a, b).is_ne() || order.compare_within(a, b).is_eq()
}

// Asks each law of every pair or triple of keys.
pub fn ask_all<O: KeyOrder>(order: &O, keys: &[O::Key]) -> LawTallies {
    let mut laws = LawTallies::default();
    for a in keys {
        for b in keys {
            laws.turns_round.note(turns_round(order, a, b));
            laws.same_is_same.note(same_is_same(order, a, b));
            for c in keys {
                laws.passes_on.note(passes_on(order, a, b, c));
                laws.rises_streamed.note(rises_streamed(order, a, b, c));
                laws.falls_buffered.note(falls_buffered(order, a, b, c));
            }
        }
    }
    laws
}
