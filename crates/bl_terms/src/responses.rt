//! Laws of the follower's answers.

ghost use Rattle.bl_terms.specs.Responses.{EntryIsOptimum, EntryLaw, NoResponseNoPoint, OptimumOfLink};

/// The follower's optimum depends on the linking columns alone.
pub fn optimum_of_link()
    ensures { OptimumOfLink }
{}

/// A true entry's cost is the follower's optimum.
pub fn entry_is_optimum()
    ensures { EntryIsOptimum }
{}

/// Where a link has no response, no point with that link meets the follower's rows.
pub fn no_response_no_point()
    ensures { NoResponseNoPoint }
{}

/// With a true entry, bilevel feasible means that the follower's cost is the entry's.
pub fn entry_law()
    ensures { EntryLaw }
{}
