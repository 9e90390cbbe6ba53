// What the logs and the joined table are made of, and what an order of keys is.
#![tactic(auto)]

mod dash;
mod hex;
pub mod key;
pub mod kind;
pub mod name;
pub mod order;
pub mod reading;
pub mod record;
pub mod row;
