//! Arithmetic of `i64` whose clauses are equations of whole numbers.

ghost use Rattle.std.specs.Prelude.{◌≡◌, ◌+ℤ◌, ◌-ℤ◌, ◌*ℤ◌, FitsSigned};
ghost use Rattle.std.specs.Int.{w64};

/// The sum of two numbers.
pub fn plus(a: i64, b: i64) -> i64
    requires { FitsSigned w64 (a +ℤ b) }
    ensures { result ≡ a +ℤ b }
{
    a + b
}

/// The difference of two numbers.
pub fn minus(a: i64, b: i64) -> i64
    requires { FitsSigned w64 (a -ℤ b) }
    ensures { result ≡ a -ℤ b }
{
    a - b
}

/// The product of two numbers.
pub fn times(a: i64, b: i64) -> i64
    requires { FitsSigned w64 (a *ℤ b) }
    ensures { result ≡ a *ℤ b }
{
    a * b
}

/// A running sum with a further product.
pub fn plus_product(sum: i64, a: i64, b: i64) -> i64
    requires product_fits { FitsSigned w64 (a *ℤ b) }
    requires sum_fits { FitsSigned w64 (sum +ℤ a *ℤ b) }
    ensures { result ≡ sum +ℤ a *ℤ b }
{
    plus(sum, times(a, b))
}
