//! Whether rows hold with equality at a point.
ghost use Rattle.std.specs.Prelude.{◌≡◌, ◌↔◌, ℕ, ◌<◌, length, IsTrue};
ghost use Rattle.std.specs.Int.{w128};
ghost use Rattle.bl_whole.specs.Sums.{dot};
ghost use Rattle.bl_whole.specs.Within.{PartialDotsFit};
ghost use Rattle.bl_terms.specs.Programs.{columns as column_count, InBox};
ghost use Rattle.bl_terms.specs.Bounds.{linear_at};
ghost use Rattle.bl_cut_terms.specs.NoGoods.{IsTightAt};
ghost use Rattle.bl_model.specs.View.{IsModel};
ghost use Rattle.bl_cut_proof.specs.Rows.{AreRows};

use bl_cut::CutRow;
use bl_model::Bilevel;
use bl_whole::dot_product;

/// Whether the row holds with equality at the point.
pub fn holds_at(row: &CutRow, point: &[i64]) -> bool
    requires places { length point.now ≡ length row.now.coef }
    requires fits { PartialDotsFit w128 row.now.coef point.now }
    ensures { IsTrue result ↔ (dot row.now.coef point.now ≡ row.now.rhs) }
{
    dot_product(&row.coef, point) == i128::from(row.right)
}

/// Whether each row holds with equality at a point of the model's box.
pub fn hold_with_equality(model: &Bilevel, rows: &[CutRow], point: &[i64]) -> bool
    requires model { IsModel model.now }
    requires rows { AreRows (column_count model.now) rows.now }
    requires inside { InBox model.now point.now }
    ensures { IsTrue result ↔ ((i : ℕ) → i < length rows.now
        → dot (linear_at rows.now i).coef point.now ≡ (linear_at rows.now i).rhs) }
{
    for i in 0..rows.len() {
        if !holds_at(&rows[i], point) {
            return false;
        }
    }
    true
}

/// Whether the point lies in the model's box, and each row holds there with equality.
pub(crate) fn is_tight_at(model: &Bilevel, rows: &[CutRow], point: &[i64]) -> bool
    requires { AreRows (column_count model.now) rows.now }
    ensures { IsTrue result ↔ IsTightAt model.now rows.now point.now }
{
    let _lo = model.lo();
    model.in_box(point) && hold_with_equality(model, rows, point)
}
