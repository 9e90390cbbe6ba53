ghost use Rattle.std.specs.Prelude.{◌≡◌, Option as Maybe};
ghost use Rattle.std.specs.declared.cmp.Ordering.{Ordering as Compared};
ghost use Rattle.std.specs.Option.{option_map};
ghost use Rattle.orders.specs.Values.{Total};
ghost use Rattle.orders.specs.Choices.{by_column, column_within, column_across};
ghost use Rattle.orders.specs.ColumnLaws.{column_laws};

use crate::choices::Choices;
use rows::order::KeyOrder;
use std::cmp::Ordering;

// A column of a key.
pub trait Column {
    type Key;

    type Value;

    // the column's value in a key, none where it is missing
    ghost value: { Self.Key → Maybe Self.Value };

    // how two values compare, the column running up
    ghost compared: { Self.Value → Self.Value → Compared };

    // what that comparison keeps: each column gives the proof of it
    ghost total: { Total compared };

    fn value_of<'a>(&self, key: &'a Self::Key) -> Option<&'a Self::Value>
        ensures { option_map (λ x. x.now) result ≡ value key.now };

    fn compare(&self, x: &Self::Value, y: &Self::Value) -> Ordering
        ensures { result ≡ compared x.now y.now };
}

// The order of one column.
#[derive(Clone, Copy)]
pub struct ColumnOrder<C> {
    pub column: C,
    pub choices: Choices,
}

impl<C: Column> ColumnOrder<C> {
    // Directions and missing values are decided here, which no derive does.
    // Two values of the column, where two missing ones give `both`.
    fn compare(&self, both: Ordering, a: Option<&C::Value>, b: Option<&C::Value>) -> Ordering
        ensures { result ≡ by_column both self.now.choices.direction self.now.choices.missing C.Column.compared (option_map (λ x. x.now) a.entry) (option_map (λ x. x.now) b.entry) }
    {
        match (a, b) {
            (None, None) => both,
            (None, Some(_)) => self.choices.missing_against(),
            (Some(_), None) => self.choices.missing_against().reverse(),
            (Some(x), Some(y)) => self.choices.directed(self.column.compare(x, y)),
        }
    }
}

impl<C: Column> KeyOrder for ColumnOrder<C> {
    type Key = C::Key;

    ghost within = { λ o a b. column_within o.choices C.Column.compared (C.Column.value a) (C.Column.value b) };

    ghost across = { λ o a b. column_across o.choices C.Column.compared (C.Column.value a) (C.Column.value b) };

    ghost lawful = { λ o. column_laws o.choices C.Column.compared C.Column.value C.Column.total };

    fn compare_within(&self, a: &C::Key, b: &C::Key) -> Ordering {
        self.compare(
            Ordering::Equal,
            self.column.value_of(a),
            self.column.value_of(b),
        )
    }

    fn compare_across(&self, streamed: &C::Key, buffered: &C::Key) -> Ordering {
        self.compare(
            self.choices.two_missing(),
            self.column.value_of(streamed),
            self.column.value_of(buffered),
        )
    }
}
