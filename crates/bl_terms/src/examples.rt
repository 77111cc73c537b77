//! The definitions on small programs whose answers were worked out by hand.

ghost use Rattle.bl_terms.specs.EveryPoint.{TestsDecide};
ghost use Rattle.bl_terms.specs.Examples.{WorkedExamples};

/// The tests that try every point decide the definitions.
pub fn tests_decide()
    ensures { TestsDecide }
{}

/// The definitions give the answers of the worked examples.
pub fn worked_examples()
    ensures { WorkedExamples }
{}
