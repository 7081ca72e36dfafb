// The law of lowering, under a contract.
ghost use Rattle.netlist.specs.Building.{DesignsLower};

// Every sound design, of whatever size, has a netlist that computes what it computes, with no more cells than the plain layout counts.
pub fn designs_lower()
    ensures { DesignsLower }
{}
