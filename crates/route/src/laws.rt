// Laws of layouts: each is a function without code, whose contract is the law.
ghost use Rattle.route.specs.Plain.{PlainRealizes};

// Where the fabric has room for it, the plain layout lays the netlist out.
pub fn plain_realizes()
    ensures { PlainRealizes }
{}
