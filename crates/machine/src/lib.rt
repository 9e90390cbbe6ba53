// The join as a machine of small steps, what its calls answer, and the law of its runs.
#![tactic(auto)]

pub mod answer;
pub mod fault;
pub mod law_of_runs;
