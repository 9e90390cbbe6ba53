ghost use Rattle.filters.specs.Verdicts.{and};

use crate::filter::{Filter, Verdict};
use rows::reading::Reading;

// Asks that two filters both say yes: SQL's AND of what they say.
#[derive(Clone, Copy)]
pub struct BothFilters<P, Q> {
    pub first: P,
    pub second: Q,
}

impl<P: Filter, Q: Filter> Filter for BothFilters<P, Q> {
    ghost says = { λ f left right. and (P.Filter.says f.first left right) (Q.Filter.says f.second left right) };

    fn ask(&self, left: &Reading, right: &Reading) -> Verdict {
        self.first
            .ask(left, right)
            .and(self.second.ask(left, right))
    }
}
