ghost use Rattle.machine.specs.Law.{LawOfRuns};

use rows::order::KeyOrder;
use sinks::sink::Sink;

// The law of runs holds of every join, over every order with its laws and every sink. The function has nothing to do; its
// contract is the theorem.
pub fn law_of_runs_holds<O: KeyOrder, T: Sink>(order: &O, sink: &T)
    ensures { LawOfRuns (O.within order.now) (O.across order.now) T.fitting T.after }
{}
