// Laws of every fabric, as theorems under contracts.
ghost use Rattle.fabric.specs.Laws.{StepsReturn, EdgesAreClosed, RanksSettle, SettlingIsDecided};

// A step to a side that is no edge stays on the fabric, and the step back returns.
pub fn steps_return()
    ensures { StepsReturn }
{}

// From no cell does a step arrive over an edge.
pub fn edges_are_closed()
    ensures { EdgesAreClosed }
{}

// With ranks, and a state that a sweep leaves as it is, the fabric settles to that state.
pub fn ranks_settle()
    ensures { RanksSettle }
{}

// It is decided of any configuration whether the fabric settles.
pub fn settling_is_decided()
    ensures { SettlingIsDecided }
{}
