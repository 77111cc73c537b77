//! One number of a pivot.
ghost use Rattle.std.specs.Prelude.{◌≡◌, ◌≢◌, ◌↔◌, pos, IfOk, IsTrue};
ghost use Rattle.std.specs.Option.{ok_or};
ghost use Rattle.bl_simplex.specs.Fractions.{IsReduced};
ghost use Rattle.bl_simplex.specs.Pivots.{scaled_entry, eliminated_entry};

use bl_frac::{Frac, WideFrac, div, mul, negation, parts, sub, whole};

/// Whether `x` is 0.
pub(crate) fn is_zero(x: Frac) -> bool
    ensures { IsTrue result ↔ (x.num ≡ pos 0) }
{
    let (num, _) = parts(x);
    num == 0
}

/// The number `x` of the pivot row, divided by the pivot; one over the pivot at its own column.
pub(crate) fn scaled(x: Frac, pivot: Frac, own: bool) -> Result<Frac, WideFrac>
    requires nonzero { pivot.num ≢ pos 0 }
    requires number { IsReduced x }
    requires divisor { IsReduced pivot }
    ensures value { result ≡ ok_or (scaled_entry x pivot own) (record {}) }
    ensures lowest_terms { IfOk result IsReduced }
{
    if own {
        return div(whole(1), pivot);
    }
    if is_zero(x) {
        return Ok(x);
    }
    div(x, pivot)
}

/// The number `x` of another row, less `factor` times the scaled entry of the pivot row; minus that product at the
/// pivot's own column.
pub(crate) fn eliminated(factor: Frac, x: Frac, scaled: Frac, own: bool) -> Result<Frac, WideFrac>
    requires factor_reduced { IsReduced factor }
    requires number { IsReduced x }
    requires scaled_reduced { IsReduced scaled }
    ensures value { result ≡ ok_or (eliminated_entry factor x scaled own) (record {}) }
    ensures lowest_terms { IfOk result IsReduced }
{
    if own {
        return Ok(negation(mul(factor, scaled)?));
    }
    if is_zero(scaled) {
        return Ok(x);
    }
    sub(x, mul(factor, scaled)?)
}
