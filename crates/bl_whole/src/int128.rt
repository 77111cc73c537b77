//! Arithmetic of `i128` whose clauses are equations of whole numbers.

ghost use Rattle.std.specs.Prelude.{◌≡◌, ◌+ℤ◌, ◌-ℤ◌, ◌*ℤ◌, FitsSigned};
ghost use Rattle.std.specs.Int.{w128};

/// The sum of two numbers.
pub fn plus(a: i128, b: i128) -> i128
    requires { FitsSigned w128 (a +ℤ b) }
    ensures { result ≡ a +ℤ b }
{
    a + b
}

/// The difference of two numbers.
pub fn minus(a: i128, b: i128) -> i128
    requires { FitsSigned w128 (a -ℤ b) }
    ensures { result ≡ a -ℤ b }
{
    a - b
}

/// The product of two numbers.
pub fn times(a: i128, b: i128) -> i128
    requires { FitsSigned w128 (a *ℤ b) }
    ensures { result ≡ a *ℤ b }
{
    a * b
}

/// A running sum with a further product.
pub fn plus_product(sum: i128, a: i128, b: i128) -> i128
    requires product_fits { FitsSigned w128 (a *ℤ b) }
    requires sum_fits { FitsSigned w128 (sum +ℤ a *ℤ b) }
    ensures { result ≡ sum +ℤ a *ℤ b }
{
    plus(sum, times(a, b))
}

/// The product of two numbers of 64 bits, which always fits.
pub fn widening_product(a: i64, b: i64) -> i128
    ensures { result ≡ a *ℤ b }
{
    a as i128 * b as i128
}

/// A running sum with a further product of two numbers of 64 bits.
pub fn plus_widening_product(sum: i128, a: i64, b: i64) -> i128
    requires { FitsSigned w128 (sum +ℤ a *ℤ b) }
    ensures { result ≡ sum +ℤ a *ℤ b }
{
    plus(sum, widening_product(a, b))
}
