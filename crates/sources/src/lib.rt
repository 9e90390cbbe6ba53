// Where rows come from.
#![tactic(auto)]

mod batch;
pub mod clock;
pub mod fault;
pub mod kind;
pub mod log;
pub mod memory;
pub mod source;
