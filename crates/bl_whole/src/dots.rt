//! Sums of products by place.

ghost use Rattle.std.specs.Prelude.{◌≡◌, length};
ghost use Rattle.std.specs.Int.{w128};
ghost use Rattle.bl_whole.specs.Sums.{dot};
ghost use Rattle.bl_whole.specs.Within.{PartialDotsFit};

use crate::int128::plus_widening_product;

/// The sum of the products at each place of `coefs`. Takes one multiplication and one addition a place.
pub fn dot_product(coefs: &[i64], values: &[i64]) -> i128
    requires places { length values.now ≡ length coefs.now }
    requires fits { PartialDotsFit w128 coefs.now values.now }
    ensures { result ≡ dot coefs.now values.now }
{
    let mut sum = 0;
    for k in 0..coefs.len() {
        sum = plus_widening_product(sum, coefs[k], values[k]);
    }
    sum
}
