ghost use Rattle.merge.specs.Examples.{Examples};

// Small joins come out as they should. The function has nothing to do; its contract is the list of examples, each shown by
// computation.
pub fn small_joins_come_out_right()
    ensures { Examples }
{}
