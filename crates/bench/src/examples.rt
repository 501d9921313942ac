// The calls' definitions held against examples that were worked out apart from them.
ghost use Rattle.bench.specs.Examples.{ExamplesHold};

// Each example's duty and rule have the verdict that they should have, and each slip passes or breaks a rule as it should.
pub fn examples_hold()
    ensures { ExamplesHold }
{}
