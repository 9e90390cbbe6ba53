ghost use Rattle.std.specs.Prelude.{◌≡◌};
ghost use Rattle.orders.specs.KeyOrders.{frame_within, frame_across, label_within, label_across};
ghost use Rattle.orders.specs.KeyOrderLaws.{frame_laws, label_laws};

use crate::chain::Chain;
use crate::choices::{Choices, Direction, MissingEquals, MissingPlace};
use crate::column::ColumnOrder;
use crate::key_columns::{LabelColumn, NodeColumn, NumberColumn};
use rows::key::{FrameKey, LabelKey};
use rows::order::KeyOrder;
use std::cmp::Ordering;

// The order of frame keys: the chain of node and frame number.
#[derive(Clone, Copy, PartialEq, Eq, Debug)]
pub struct FrameOrder {
    pub node: Direction,
    pub number: Choices,
}

impl FrameOrder {
    pub fn new(node: Direction, number: Choices) -> FrameOrder
        ensures { result ≡ record { node = node; number = number } }
    {
        FrameOrder { node, number }
    }

    // A node is never missing, so where missing would stand and what it would equal decide nothing.
    fn chain(&self) -> Chain<ColumnOrder<NodeColumn>, ColumnOrder<NumberColumn>>
        ensures node { result.first.choices.direction ≡ self.now.node }
        ensures number { result.second.choices ≡ self.now.number }
    {
        let node = Choices::new(self.node, MissingPlace::Last, MissingEquals::Nothing);
        Chain {
            first: ColumnOrder {
                column: NodeColumn,
                choices: node,
            },
            second: ColumnOrder {
                column: NumberColumn,
                choices: self.number,
            },
        }
    }
}

impl KeyOrder for FrameOrder {
    type Key = FrameKey;

    ghost within = { λ o. frame_within o.node o.number };

    ghost across = { λ o. frame_across o.node o.number };

    ghost lawful = { λ o. frame_laws o.node o.number };

    // within and across are two questions to an order
    fn compare_within(&self, a: &FrameKey, b: &FrameKey) -> Ordering {
        self.chain().compare_within(a, b)
    }

    fn compare_across(&self, streamed: &FrameKey, buffered: &FrameKey) -> Ordering {
        self.chain().compare_across(streamed, buffered)
    }
}

// The order of label keys: the one column that they have.
#[derive(Clone, Copy, PartialEq, Eq, Debug)]
pub struct LabelOrder {
    pub label: Choices,
}

impl LabelOrder {
    pub fn new(label: Choices) -> LabelOrder
        ensures { result ≡ record { label = label } }
    {
        LabelOrder { label }
    }

    fn column(&self) -> ColumnOrder<LabelColumn>
        ensures { result.choices ≡ self.now.label }
    {
        ColumnOrder {
            column: LabelColumn,
            choices: self.label,
        }
    }
}

impl KeyOrder for LabelOrder {
    type Key = LabelKey;

    ghost within = { λ o. label_within o.label };

    ghost across = { λ o. label_across o.label };

    ghost lawful = { λ o. label_laws o.label };

    // as above
    fn compare_within(&self, a: &LabelKey, b: &LabelKey) -> Ordering {
        self.column().compare_within(a, b)
    }

    fn compare_across(&self, streamed: &LabelKey, buffered: &LabelKey) -> Ordering {
        self.column().compare_across(streamed, buffered)
    }
}
