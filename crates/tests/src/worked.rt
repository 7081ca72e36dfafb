// The worked example, under a contract.
ghost use Rattle.tests.specs.Worked.{WorkedAnd};

// What the "and" of two single bits takes up and shows.
pub fn worked_and()
    ensures { WorkedAnd }
{}
