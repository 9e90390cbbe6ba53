#![tactic(auto)]

ghost use Rattle.law.specs.Law.{Stands};

// The law of runs holds of the join in its plain form, over any rows, source faults and sink values. The function has
// nothing to do; its contract is the theorem.
pub fn law_of_runs_stands<X, F, V>(_row: &X, _fault: &F, _value: &V)
    ensures { Stands X F V }
{}
