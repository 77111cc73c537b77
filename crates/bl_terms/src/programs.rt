//! Laws of programs.

ghost use Rattle.bl_terms.specs.Programs.{LinkingComputed};

/// The linking columns are the columns that pass a test, in rising order.
pub fn linking_computed()
    ensures { LinkingComputed }
{}
