//! Laws of the end of a search.
ghost use Rattle.bl_core.specs.Outcomes.{FullBookMayEnd};

/// A split that is refused since the book is full is a cause of an end.
pub fn full_book_may_end()
    ensures { FullBookMayEnd }
{}
