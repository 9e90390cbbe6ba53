// The orders of frame keys and of label keys: columns, and chains of them.
#![tactic(auto)]

pub mod chain;
pub mod choices;
pub mod column;
pub mod key_columns;
pub mod key_orders;
pub mod label;
