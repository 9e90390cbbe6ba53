// The join: opened, worked turn by turn, and reported on.
#![tactic(auto)]

mod close;
mod compare;
mod fetch;
mod hand;
mod limits;
mod load;
mod note;
mod opening;
mod pair;
mod parts;
mod pass;
mod phase;
mod report;
mod settle;
mod state;
mod stop;
mod turn;
