// Asks every order of a few keys for its laws, at every pair and triple, and prints what it answers.
#![tactic(auto)]

mod laws;
mod tables;

ghost use Rattle.std.specs.Prelude.{◌≡◌};
ghost use Rattle.std.specs.declared.cmp.Ordering.TheVariants.{Less, Equal};

use laws::ask_all;
use orders::choices::{Choices, Direction, MissingEquals, MissingPlace};
use orders::key_orders::{FrameOrder, LabelOrder};
use rows::key::{FrameKey, LabelKey};
use rows::order::KeyOrder;
use std::cmp::Ordering;
use std::io;
use tables::Answer;

const DIRECTIONS: [Direction; 2] = [Direction::Up, Direction::Down];

const PLACES: [MissingPlace; 2] = [MissingPlace::First, MissingPlace::Last];

const EQUALS: [MissingEquals; 2] = [MissingEquals::Missing, MissingEquals::Nothing];

// Two nodes, each with a missing number and two others.
const FRAME_KEYS: [FrameKey; 6] = [
    FrameKey {
        node: 1,
        number: None,
    },
    FrameKey {
        node: 1,
        number: Some(1),
    },
    FrameKey {
        node: 1,
        number: Some(2),
    },
    FrameKey {
        node: 2,
        number: None,
    },
    FrameKey {
        node: 2,
        number: Some(1),
    },
    FrameKey {
        node: 2,
        number: Some(2),
    },
];

// A missing label, and labels that differ in the last byte or in the highest bit of the first.
const LABEL_KEYS: [LabelKey; 5] = [
    LabelKey { label: None },
    LabelKey {
        label: Some([0, 0, 0, 0, 0, 0, 0, 0, 0, 0, 0, 0]),
    },
    LabelKey {
        label: Some([0, 0, 0, 0, 0, 0, 0, 0, 0, 0, 0, 1]),
    },
    LabelKey {
        label: Some([127, 0, 0, 0, 0, 0, 0, 0, 0, 0, 0, 0]),
    },
    LabelKey {
        label: Some([128, 0, 0, 0, 0, 0, 0, 0, 0, 0, 0, 0]),
    },
];

// The answers of a comparison for every pair of keys.
fn show_answers<K, F: Fn(&K, &K) -> Ordering>(
    rt: &impl Print,
    name: &str,
    keys: &[K],
    compare: F,
) -> io::Result<()>
    requires { F.IsAlwaysCallable compare }
{
    rt.print(name)?;
    for a in keys {
        rt.print(" ")?;
        for b in keys {
            rt.print(Answer(compare(a, b)))?;
        }
    }
    Ok(())
}

// How an order answers within, a line, and across, another, and how it keeps its laws.
fn show<O: KeyOrder>(rt: &impl Print, order: &O, keys: &[O::Key]) -> io::Result<()> {
    show_answers(rt, "within", keys, |a, b| order.compare_within(a, b))?;
    show_answers(rt, "\nacross", keys, |a, b| order.compare_across(a, b))?;
    let laws = ask_all(order, keys);
    println!(rt; "\n{laws}")
}

fn show_frame_orders(rt: &impl Print, number: Choices) -> io::Result<()> {
    let Choices {
        direction,
        missing,
        equals,
    } = number;
    for node in DIRECTIONS {
        println!(rt; "node {node}, frame {direction}, missing {missing}, missing equals {equals}")?;
        show(rt, &FrameOrder::new(node, number), &FRAME_KEYS)?;
    }
    Ok(())
}

fn show_label_order(rt: &impl Print, label: Choices) -> io::Result<()> {
    let Choices {
        direction,
        missing,
        equals,
    } = label;
    println!(rt; "label {direction}, missing {missing}, missing equals {equals}")?;
    show(rt, &LabelOrder::new(label), &LABEL_KEYS)
}

// The practice house orders up, with missing last and equal to nothing: two missing are same within and before across.
fn two_missing() -> (Ordering, Ordering)
    ensures { result ≡ (Equal, Less) }
{
    let order = LabelOrder::new(Choices::new(
        Direction::Up,
        MissingPlace::Last,
        MissingEquals::Nothing,
    ));
    let missing = LabelKey { label: None };
    (
        order.compare_within(&missing, &missing),
        order.compare_across(&missing, &missing),
    )
}

fn main(rt: HostRuntime) -> io::Result<()> {
    let (within, across) = two_missing();
    let (within, across) = (Answer(within), Answer(across));
    println!(rt; "two missing in the practice house: within {within} across {across}")?;
    for direction in DIRECTIONS {
        for place in PLACES {
            for equals in EQUALS {
                let choices = Choices::new(direction, place, equals);
                show_frame_orders(&rt, choices)?;
                show_label_order(&rt, choices)?;
            }
        }
    }
    Ok(())
}
