//! What the optimum of an open dictionary is. The function does nothing: its contract is the laws.
ghost use Rattle.bl_vertex.specs.Optima.{OptimumInBox, FractionalOptimum, WholeOptimum};

/// The basic values of a dictionary that doesn't close the box, reached by steps and without a negative right side,
/// are distances in the box. They are a licence to split it where one isn't whole, and else a point of it that meets
/// the rows below the cutoff.
pub fn open_optimum_law()
    ensures in_box { OptimumInBox }
    ensures fractional { FractionalOptimum }
    ensures whole { WholeOptimum }
{}
