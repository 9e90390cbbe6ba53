// The joined table, written down by holding every row against every row: slow, and for logs in any sequence.
ghost use Rattle.std.specs.Prelude.{◌≡◌, ◌^◌, ◌≤◌, ◌++◌, length, IfOk, OnOk};
ghost use Rattle.merge.specs.declared.nested_loops.TableError.TheVariants.{Memory};
ghost use Rattle.merge.specs.Joined.{filter_of, joined};
ghost use Rattle.merge.specs.Places.{RefusesTooLong};

use filters::filter::{Filter, lets_through};
use rows::kind::{Kind, Side};
use rows::order::KeyOrder;
use rows::record::Record;
use rows::row::Row;
use std::alloc::{AllocError, Global};

// Why there is no table.
#[derive(Clone, Copy, PartialEq, Eq, Debug)]
pub enum TableError {
    // a log has more rows than places can name
    TooLong,
    Memory,
}

impl From<AllocError> for TableError {
    ghost from_gives = { λ _ r. r ≡ Memory };

    fn from(_e: AllocError) -> TableError {
        TableError::Memory
    }
}

// The rows of a log that places can name.
const MOST_ROWS: usize = 4_294_967_296;

// The joined table of the two logs: the passing pairs, then the lone rows that the kind lists.
pub fn joined_table<'a, O: KeyOrder, F: Filter>(
    heap: Global,
    kind: Kind,
    order: &'a O,
    filter: &'a Option<F>,
    left: &'a [Row<O::Key>],
    right: &'a [Row<O::Key>],
) -> Result<Vec<Record>, TableError>
    ensures table { IfOk result (λ v. v.items ≡ joined kind (O.across order.now) (filter_of F.says filter.now) left.now right.now) }
    ensures refusal { RefusesTooLong result (length left.now) (length right.now) }
{
    if left.len() > MOST_ROWS || right.len() > MOST_ROWS {
        return Err(TableError::TooLong);
    }
    let sides = Sides {
        kind,
        order,
        filter,
        left,
        right,
    };
    let mut table = Vec::new(heap);
    sides.add_pairs(&mut table)?;
    if kind.lists_streamed() {
        sides.add_lone(kind.streamed_side(), &mut table)?;
    }
    if kind.lists_buffered() {
        sides.add_lone(kind.buffered_side(), &mut table)?;
    }
    Ok(table)
}

// The two sides of a join, and what a pair of their rows has to meet.
#[derive(Drop)]
struct Sides<'a, O: KeyOrder, F: Filter> {
    kind: Kind,
    order: &'a O,
    filter: &'a Option<F>,
    left: &'a [Row<O::Key>],
    right: &'a [Row<O::Key>],
    // a place can name each row
    ghost left_short: { length left.now ≤ 2 ^ 32 },
    ghost right_short: { length right.now ≤ 2 ^ 32 },
}

// What a pair goes through is inlined into the table's caller, where the kind and the filter may be known.
impl<'a, O: KeyOrder, F: Filter> Sides<'a, O, F> {
    ghost use Rattle.merge.specs.Nested.{passing_sides, rows_of, is_alone, pairs, lone};

    // Whether a streamed and a buffered row pass: their keys are same across, and the filter lets them through.
    #[inline(always)]
    fn passes(&self, streamed: &Row<O::Key>, buffered: &Row<O::Key>) -> bool
        ensures { result ≡ passing_sides self.now streamed.now buffered.now }
    {
        let across = self.order.compare_across(&streamed.key, &buffered.key);
        // a match, which leaves the loop over pairs where `oriented` stays in it
        across.is_eq()
            && match self.kind {
                Kind::Right => lets_through(self.filter, &buffered.reading, &streamed.reading),
                Kind::Inner | Kind::Left | Kind::Full => {
                    lets_through(self.filter, &streamed.reading, &buffered.reading)
                }
            }
    }

    fn rows_of(&self, side: Side) -> &'a [Row<O::Key>]
        ensures { result.now ≡ rows_of self.now side }
    {
        match side {
            Side::Left => self.left,
            Side::Right => self.right,
        }
    }

    // Whether a row of a side passes with no row of the other side.
    #[inline(always)]
    fn is_alone(&self, side: Side, row: &Row<O::Key>) -> bool
        ensures { result ≡ is_alone self.now side row.now }
    {
        let kind = self.kind;
        if side == kind.streamed_side() {
            let buffered = self.rows_of(kind.buffered_side());
            !buffered.iter().any(|y| self.passes(row, y))
        } else {
            let streamed = self.rows_of(kind.streamed_side());
            !streamed.iter().any(|x| self.passes(x, row))
        }
    }

    // Adds the passing pairs.
    fn add_pairs(&self, table: &mut Vec<Record>) -> Result<(), AllocError>
        ensures { OnOk result (table.new.items ≡ table.old.items ++ pairs self.now) }
    {
        let (streamed, buffered) = self.kind.oriented(self.left, self.right);
        for (i, x) in streamed.iter().enumerate() {
            for (j, y) in buffered.iter().enumerate() {
                if self.passes(x, y) {
                    let (left_place, right_place) = self.kind.oriented(i as u32, j as u32);
                    table.push(Record::Pair(left_place, right_place))?;
                }
            }
        }
        Ok(())
    }

    // Adds the rows of a side that are alone.
    #[inline(always)]
    fn add_lone(&self, side: Side, table: &mut Vec<Record>) -> Result<(), AllocError>
        ensures { OnOk result (table.new.items ≡ table.old.items ++ lone self.now side) }
    {
        for (i, row) in self.rows_of(side).iter().enumerate() {
            if self.is_alone(side, row) {
                table.push(Record::alone(side, i as u32))?;
            }
        }
        Ok(())
    }
}
