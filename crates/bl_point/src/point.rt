//! The tests of a whole point, exact in 128 bits.
ghost use Rattle.std.specs.Prelude.{◌≡◌, ◌↔◌, ℕ, ◌<◌, length, IsTrue};
ghost use Rattle.bl_whole.specs.Sums.{dot};
ghost use Rattle.bl_terms.specs.Points.{InArea, Meets};
ghost use Rattle.bl_terms.specs.Bounds.{Fits, linear_at};
ghost use Rattle.bl_bound.specs.Plain.{CostsLess, IsBetterPoint};

use bl_bound::Problem;
use bl_whole::dot_product;

/// Whether the point has a number for each column, in its range.
fn is_inside(problem: &Problem<'_>, point: &[i64]) -> bool
    ensures { IsTrue result ↔ InArea problem.now.area point.now }
{
    let lo = problem.lo();
    let hi = problem.hi();
    if point.len() != lo.len() {
        return false;
    }
    for j in 0..lo.len() {
        if point[j] < lo[j] || hi[j] < point[j] {
            return false;
        }
    }
    true
}

/// Whether a point of the box meets every row.
fn meets_rows(problem: &Problem<'_>, point: &[i64]) -> bool
    requires problem_fits { Fits problem.now }
    requires inside { InArea problem.now.area point.now }
    ensures { IsTrue result ↔ ((i : ℕ) → i < length problem.now.rows → Meets (linear_at problem.now.rows i) point.now) }
{
    let rows = problem.rows();
    for i in 0..rows.len() {
        let row = &rows[i];
        let value = dot_product(row.coef(), point);
        if i128::from(row.rhs()) < value {
            return false;
        }
    }
    true
}

/// The cost of a point of the box.
pub fn cost_at(problem: &Problem<'_>, point: &[i64]) -> i128
    requires problem_fits { Fits problem.now }
    requires inside { InArea problem.now.area point.now }
    ensures { result ≡ dot problem.now.cost point.now }
{
    dot_product(problem.cost(), point)
}

/// Whether a point of the box costs less than the cutoff.
fn costs_less(problem: &Problem<'_>, cutoff: Option<i64>, point: &[i64]) -> bool
    requires problem_fits { Fits problem.now }
    requires inside { InArea problem.now.area point.now }
    ensures { IsTrue result ↔ CostsLess cutoff (dot problem.now.cost point.now) }
{
    match cutoff {
        Some(cutoff) => cost_at(problem, point) < i128::from(cutoff),
        None => true,
    }
}

/// Whether the point lies in the box, meets the rows and costs less than the cutoff.
pub fn whole_at(problem: &Problem<'_>, cutoff: Option<i64>, point: &[i64]) -> bool
    requires { Fits problem.now }
    ensures { IsTrue result ↔ IsBetterPoint problem.now cutoff point.now }
{
    is_inside(problem, point) && meets_rows(problem, point) && costs_less(problem, cutoff, point)
}
