//! Places of columns.
ghost use Rattle.std.specs.Prelude.{◌≡◌, ◌↔◌, length, IsTrue};
ghost use Rattle.bl_terms.specs.Trees.{CanSplit};

/// A place of a column, which splits its range: up to `at`, and above.
#[derive(Clone, Copy, Debug, PartialEq, Eq)]
pub struct Place {
    pub column: u32,
    pub at: i64,
}

/// Whether both halves have a number in the column.
pub fn can_split(lo: &[i64], hi: &[i64], column: usize, at: i64) -> bool
    requires { length hi.now ≡ length lo.now }
    ensures { IsTrue result ↔ CanSplit (record { lo = lo.now; hi = hi.now }) column at }
{
    column < lo.len() && lo[column] <= at && at < hi[column]
}
