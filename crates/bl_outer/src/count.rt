//! Counts that stand still at their greatest value.

ghost use Rattle.std.specs.Prelude.{◌≡◌};
ghost use Rattle.bl_outer.specs.Count as counts;

/// One more, or the same at the greatest number.
pub(crate) fn saturating_increment(count: u64) -> u64
    ensures { result ≡ counts.saturating_increment count }
{
    count.saturating_add(1)
}
