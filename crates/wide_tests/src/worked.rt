// The worked examples, under a contract.
ghost use Rattle.wide_tests.specs.Worked.{WorkedExamples};

// What the examples take up and show.
pub fn worked_examples()
    ensures { WorkedExamples }
{}
