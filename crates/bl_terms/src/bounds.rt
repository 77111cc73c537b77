//! Laws of bound proofs.

ghost use Rattle.bl_terms.specs.Bounds.{BoundSumsFit, LeastProduct, NoCutoffNoPoint, NoPoint, TreeOfProofs};
ghost use Rattle.bl_terms.specs.Bounds.{TreeOfRefusals, WeakDuality};

/// The least product of a range is the least.
pub fn least_product_is_least()
    ensures { LeastProduct }
{}

/// Every point of the box that meets the rows costs at least the proved cutoff.
pub fn weak_duality()
    ensures { WeakDuality }
{}

/// A proof with the denominator 0 shows that no point of the box meets the rows.
pub fn no_point()
    ensures { NoPoint }
{}

/// A proof without a cutoff shows that no point of the box meets the rows.
pub fn no_cutoff_no_point()
    ensures { NoCutoffNoPoint }
{}

/// A tree of proofs bounds its box.
pub fn tree_of_proofs()
    ensures { TreeOfProofs }
{}

/// A tree of proofs without a cutoff shows that no point of its box meets the rows.
pub fn tree_of_refusals()
    ensures { TreeOfRefusals }
{}

/// Every sum of a bound proof fits 128 bits where the problem fits.
pub fn bound_sums_fit()
    ensures { BoundSumsFit }
{}
