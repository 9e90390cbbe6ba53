// Where records go.
#![tactic(auto)]

pub mod cap;
pub mod list;
pub mod sink;
pub mod tally;
#[cfg(test)]
mod tests;
