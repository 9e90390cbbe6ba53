// What a pair of readings has to meet.
#![tactic(auto)]

pub mod both;
pub mod filter;
pub mod grade;
#[cfg(test)]
mod tests;
pub mod window;
