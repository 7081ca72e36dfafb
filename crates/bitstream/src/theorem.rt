// Theorems of implementations, each under a contract.
ghost use Rattle.bitstream.specs.Theorem.{LayoutsImplement, ImplementationsExist, RunsShow};

// A netlist that computes what the design computes, and a configuration that lays it out, implement the design.
pub fn layouts_implement()
    ensures { LayoutsImplement }
{}

// Every sound design for which the plain layout has room, of any size and on any fabric, has a configuration and pins that implement it.
pub fn implementations_exist()
    ensures { ImplementationsExist }
{}

// A configuration and pins that implement a design, played tick by tick, settle in every tick and show what the design shows.
pub fn runs_show()
    ensures { RunsShow }
{}
