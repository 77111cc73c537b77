//! The refinement of a dictionary's point: residuals in whole numbers, corrections in doubles (Wilkinson 1963).
use crate::dictionary::Dictionary;
use crate::numbers::{at, put};
use bl_bound::Problem;
use std::alloc::AllocError;
use std::num::{nearest_i64_to_f64, saturating_f64_to_i64};

/// How many parts 1 has in a refined value: `2^60`.
pub const FINE_UNIT: i128 = 1 << 60;

/// The same in doubles.
const FINE_PARTS: f64 = 1_152_921_504_606_846_976.0;

/// How often a point is corrected.
const CORRECTIONS: u32 = 3;

/// A number in parts of the unit.
fn fine_of(number: f64) -> i128 {
    let whole = (number + 0.5).floor();
    let rest = saturating_f64_to_i64((number - whole) * FINE_PARTS);
    i128::from(saturating_f64_to_i64(whole))
        .saturating_mul(FINE_UNIT)
        .saturating_add(i128::from(rest))
}

/// Writes the numbers in parts of the unit.
pub(crate) fn begin_fine(fine: &mut Vec<i128>, numbers: &[f64]) -> Result<(), AllocError> {
    fine.clear();
    for number in numbers {
        fine.push(fine_of(*number))?;
    }
    Ok(())
}

/// What is left of a row's right side at a refined point, in parts of the unit, if it is small.
fn residual(coefs: &[i64], rhs: i64, fine: &[i128]) -> Option<f64> {
    let mut rest = i128::from(rhs).checked_mul(FINE_UNIT)?;
    for (a, x) in coefs.iter().zip(fine.iter()) {
        rest = rest.checked_sub(i128::from(*a).checked_mul(*x)?)?;
    }
    match i64::try_from(rest) {
        Ok(rest) => Some(nearest_i64_to_f64(rest)),
        Err(_) => None,
    }
}

impl Dictionary {
    /// Corrects a point until the rows of the nonbasic activities hold with equality, as nearly as the unit allows.
    pub(crate) fn refine(
        &mut self,
        problem: &Problem<'_>,
        scales: &[f64],
        fine: &mut [i128],
    ) -> bool {
        for _ in 0..CORRECTIONS {
            if !self.write_residuals(problem, scales, fine) {
                return false;
            }
            self.correct(fine);
        }
        true
    }

    /// Writes by how much each nonbasic variable has to move, in parts of the unit. It is false where that is too much.
    fn write_residuals(&mut self, problem: &Problem<'_>, scales: &[f64], fine: &[i128]) -> bool {
        let columns = self.nonbasic.len();
        for (column, variable) in self.nonbasic.iter().enumerate() {
            let row = (variable.label as usize).checked_sub(columns);
            let mut moves = 0.0;
            if let Some(i) = row {
                let Some(row) = problem.rows().get(i) else {
                    return false;
                };
                let Some(rest) = residual(row.coef(), row.rhs(), fine) else {
                    return false;
                };
                moves = rest * at(scales, i);
            }
            put(&mut self.solved, column, moves);
        }
        true
    }

    /// Moves the basic columns as the nonbasic variables move.
    fn correct(&self, fine: &mut [i128]) {
        let width = self.width();
        for (row, basic) in self.entries.chunks_exact(width).zip(self.basic.iter()) {
            if let Some(x) = fine.get_mut(basic.label as usize) {
                let mut sum = 0.0;
                for (entry, moves) in row.iter().zip(self.solved.iter()) {
                    sum += *entry * *moves;
                }
                *x = x.saturating_add(i128::from(saturating_f64_to_i64((sum + 0.5).floor())));
            }
        }
    }
}
