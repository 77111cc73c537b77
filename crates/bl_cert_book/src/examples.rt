//! The certificates of small books that were worked out by hand.
ghost use Rattle.bl_cert_book.specs.Examples.{WorkedBooks};

/// Two finished books give the certificates that were worked out by hand.
pub fn worked_books()
    ensures { WorkedBooks }
{}
