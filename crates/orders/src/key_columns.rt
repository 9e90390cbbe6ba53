ghost use Rattle.std.specs.Prelude.{Some as Present};
ghost use Rattle.orders.specs.Values.{by_size, by_bytes};
ghost use Rattle.orders.specs.ValueLaws.{by_size_total, by_bytes_total};

use crate::column::Column;
use crate::label::compare_labels;
use rows::key::{FrameKey, LabelKey};
use std::cmp::Ordering;

// The node of a frame key, which is never missing.
#[derive(Clone, Copy)]
pub struct NodeColumn;

impl Column for NodeColumn {
    type Key = FrameKey;

    type Value = u16;

    ghost value = { λ k. Present k.node };

    ghost compared = { by_size };

    ghost total = { by_size_total };

    fn value_of<'a>(&self, key: &'a FrameKey) -> Option<&'a u16> {
        Some(&key.node)
    }

    fn compare(&self, x: &u16, y: &u16) -> Ordering {
        x.cmp(y)
    }
}

// The number of a frame key.
#[derive(Clone, Copy)]
pub struct NumberColumn;

impl Column for NumberColumn {
    type Key = FrameKey;

    type Value = u32;

    ghost value = { λ k. k.number };

    ghost compared = { by_size };

    ghost total = { by_size_total };

    fn value_of<'a>(&self, key: &'a FrameKey) -> Option<&'a u32> {
        key.number.as_ref()
    }

    fn compare(&self, x: &u32, y: &u32) -> Ordering {
        x.cmp(y)
    }
}

// The label of a label key, as unsigned bytes.
#[derive(Clone, Copy)]
pub struct LabelColumn;

impl Column for LabelColumn {
    type Key = LabelKey;

    type Value = [u8; 12];

    ghost value = { λ k. k.label };

    ghost compared = { by_bytes };

    ghost total = { by_bytes_total };

    fn value_of<'a>(&self, key: &'a LabelKey) -> Option<&'a [u8; 12]> {
        key.label.as_ref()
    }

    fn compare(&self, x: &[u8; 12], y: &[u8; 12]) -> Ordering {
        compare_labels(x, y)
    }
}
