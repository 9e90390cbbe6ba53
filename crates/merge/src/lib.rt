// The joined table of two logs, and the merge path that yields it.
#![tactic(auto)]

pub mod examples;
pub mod nested_loops;
#[cfg(test)]
mod tests;
pub mod theorems;
