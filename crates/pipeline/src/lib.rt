// What a join holds and has not handed over yet: entries in the block, buffered batches and their filter states.
#![tactic(auto)]

pub mod batch;
pub mod batches;
pub mod correction;
pub mod entry;
pub mod freeze;
pub mod held;
pub mod marks;
pub mod noted;
pub mod orient;
pub mod pairing;
pub mod queue;
pub mod refused;
pub mod run;
pub mod states;
