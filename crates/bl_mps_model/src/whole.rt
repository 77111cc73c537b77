//! The faults of a text as a whole.
ghost use Rattle.std.specs.Prelude.{◌≡◌, ◌≤◌, length, ℤ};
ghost use Rattle.bl_limits.specs.declared.TheConstants.{MAX_COLUMNS};
ghost use Rattle.bl_mps_model.specs.Whole.{upper_in, bounds_fault, bounds_faults};

use bl_mps_read::Bounds;
use bl_mps_terms::{MpsFault, MpsRule};

/// The upper bound: the default one where no line names the column.
pub fn upper_in(default: i64, bounds: Bounds) -> Option<i64>
    ensures { result ≡ upper_in default bounds }
{
    if bounds.named {
        bounds.upper
    } else {
        Some(default)
    }
}

/// The first rule that the bounds of a column break.
pub fn bounds_fault(default: i64, bounds: Bounds) -> Option<MpsRule>
    ensures { result ≡ bounds_fault default bounds }
{
    if !bounds.integer {
        return Some(MpsRule::Continuous);
    }
    let (Some(lower), Some(upper)) = (bounds.lower, upper_in(default, bounds)) else {
        return Some(MpsRule::Unbounded);
    };
    if upper < 0 && !bounds.sets_lower {
        return Some(MpsRule::NegativeUpper);
    }
    if upper < lower {
        return Some(MpsRule::EmptyBounds);
    }
    None
}

/// The fault of the first column that has one.
pub fn bounds_faults(default: i64, bounds: &[Bounds]) -> Option<MpsFault>
    requires { length bounds.now ≤ MAX_COLUMNS }
    ensures { result ≡ bounds_faults default 0 bounds.now }
{
    for (column, one) in bounds.iter().enumerate() {
        if let Some(rule) = bounds_fault(default, *one) {
            return Some(MpsFault {
                rule,
                line: 0,
                column: column as u32,
            });
        }
    }
    None
}
