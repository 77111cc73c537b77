//! Values at places.
ghost use Rattle.std.specs.Prelude.{◌≡◌, ◌<◌, ◌≤◌, All, length, IfOk};
ghost use Rattle.bl_limits.specs.declared.TheConstants.{MAX_COLUMNS, MAX_NUMBER};
ghost use Rattle.bl_whole.specs.Sums.{dot};
ghost use Rattle.bl_whole.specs.Within.{AreWithin};
ghost use Rattle.bl_terms.specs.Points.{values_at};

use bl_whole::int64::plus_product;
use std::alloc::{AllocError, Global};

/// The values at these places, in their order.
pub(crate) fn picked(alloc: Global, values: &[i64], places: &[u32]) -> Result<Vec<i64>, AllocError>
    requires { All (λ k. k < length values.now) places.now }
    ensures { IfOk result (λ picked. picked.items ≡ values_at values.now places.now) }
{
    let mut picked = Vec::with_capacity(alloc, places.len())?;
    for place in places {
        picked.push(values[*place as usize])?;
    }
    Ok(picked)
}

/// The sum of the products of the coefficients at these places with the values.
pub(crate) fn dot_at(coef: &[i64], places: &[u32], values: &[i64]) -> i64
    requires places { All (λ k. k < length coef.now) places.now }
    requires size { length values.now ≡ length places.now }
    requires few { length places.now ≤ MAX_COLUMNS }
    requires coef { AreWithin MAX_NUMBER coef.now }
    requires values { AreWithin MAX_NUMBER values.now }
    ensures { result ≡ dot (values_at coef.now places.now) values.now }
{
    let mut sum = 0;
    for j in 0..places.len() {
        sum = plus_product(sum, coef[places[j] as usize], values[j]);
    }
    sum
}
