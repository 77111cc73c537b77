//! A row of a bilevel program.

use std::marker::Model;

/// The inequality `coef·z <= right`, with one coefficient for each column.
#[derive(Debug, Drop)]
pub struct BRow {
    pub coef: Vec<i64>,
    pub right: i64,
    /// Whether the row is the follower's.
    pub lower: bool,
}

impl Model for BRow {
    ghost use Rattle.bl_terms.specs.Programs.{Row, row_code};

    ghost Value = { Row };

    ghost coded = { row_code };

    ghost view = { λ r. record { coef = r.coef.items; rhs = r.right; lower = r.lower } };
}
