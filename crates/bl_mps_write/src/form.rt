//! How a row is written.
ghost use Rattle.std.specs.Prelude.{◌≡◌};
ghost use Rattle.bl_raw.specs.Raw.{IsRow, IsSide};
ghost use Rattle.bl_mps_write.specs.Canonical.{form_of, two_sided, letter_of};

use bl_limits::MAX_TEXT_RHS;
use bl_mps_terms::RowKind;
use bl_raw::RawRow;

/// A row's kind, its right-hand side and its range.
#[derive(Clone, Copy)]
pub(crate) struct RowForm {
    pub(crate) kind: RowKind,
    pub(crate) rhs: i64,
    pub(crate) range: Option<i64>,
}

/// The form of a row.
pub(crate) fn form_of(row: &RawRow) -> RowForm
    requires { IsRow row.now }
    ensures { result ≡ form_of row.now }
{
    match row.lo {
        Some(lo) => match row.hi {
            Some(hi) => two_sided(lo, hi),
            None => one_sided(RowKind::AtLeast, lo),
        },
        None => match row.hi {
            Some(hi) => one_sided(RowKind::AtMost, hi),
            None => one_sided(RowKind::Free, 0),
        },
    }
}

fn one_sided(kind: RowKind, rhs: i64) -> RowForm
    ensures { result ≡ record { kind = kind; rhs = rhs; range = None } }
{
    RowForm {
        kind,
        rhs,
        range: None,
    }
}

fn two_sided(lo: i64, hi: i64) -> RowForm
    requires lo { IsSide lo }
    requires hi { IsSide hi }
    ensures { result ≡ two_sided lo hi }
{
    if lo == hi {
        return one_sided(RowKind::Equal, lo);
    }
    let range = Some(hi - lo);
    if lo.unsigned_abs() <= MAX_TEXT_RHS {
        RowForm {
            kind: RowKind::AtLeast,
            rhs: lo,
            range,
        }
    } else {
        RowForm {
            kind: RowKind::AtMost,
            rhs: hi,
            range,
        }
    }
}

/// The letter of a kind.
pub(crate) fn letter_of(kind: RowKind) -> &'static str
    ensures { result.now ≡ letter_of kind }
{
    match kind {
        RowKind::Free => "N",
        RowKind::AtMost => "L",
        RowKind::AtLeast => "G",
        RowKind::Equal => "E",
    }
}
