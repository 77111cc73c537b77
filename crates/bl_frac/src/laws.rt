//! What the arithmetic means over the rational numbers. Each function does nothing: its contract is a law of the
//! definitions that the contracts of the arithmetic cite.
ghost use Rattle.bl_simplex.specs.Fractions.{sum_of, difference_of, product_of, quotient_of, negated, reciprocal};
ghost use Rattle.bl_frac.specs.Laws.{Gives, QuotientGives, FailsWhere, IsSum, IsDifference, IsProduct, IsWideSum};
ghost use Rattle.bl_frac.specs.Laws.{IsWideProduct, DivisorLaw, MultipleLaw};

/// The sum is the rational one, and fails exactly where a number on the way is wide.
pub fn sum_law()
    ensures gives { Gives sum_of IsSum }
    ensures fails { FailsWhere sum_of IsWideSum }
{}

/// The difference is the rational one, and fails exactly where the sum with the negation does.
pub fn difference_law()
    ensures gives { Gives difference_of IsDifference }
    ensures fails { FailsWhere difference_of (λ a b. IsWideSum a (negated b)) }
{}

/// The product is the rational one, and fails exactly where one of its two products is wide.
pub fn product_law()
    ensures gives { Gives product_of IsProduct }
    ensures fails { FailsWhere product_of IsWideProduct }
{}

/// The quotient is the rational one, and fails exactly where the product with the reciprocal does.
pub fn quotient_law()
    ensures gives { QuotientGives }
    ensures fails { FailsWhere quotient_of (λ a b. IsWideProduct a (reciprocal b)) }
{}

/// What the greatest common divisor and the least common multiple are.
pub fn divisor_law()
    ensures divisor { DivisorLaw }
    ensures multiple { MultipleLaw }
{}
