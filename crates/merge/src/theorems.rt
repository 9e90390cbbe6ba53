ghost use Rattle.merge.specs.Joined.{filter_of};
ghost use Rattle.merge.specs.Merging.{MergingYieldsTheJoinedTable};

use filters::filter::Filter;
use rows::kind::Kind;
use rows::order::KeyOrder;

// Merging yields the joined table: over every order with its laws, every filter or none, every kind, and all logs. The
// function has nothing to do; its contract is the theorem.
pub fn merging_yields_the_joined_table<O: KeyOrder, F: Filter>(
    order: &O,
    filter: &Option<F>,
    kind: Kind,
)
    ensures { MergingYieldsTheJoinedTable (O.within order.now) (O.across order.now) (filter_of F.says filter.now) kind }
{}
