//! Laws of accepted texts.
ghost use Rattle.bl_check_terms.specs.Accepting.{AcceptanceLaw, HaveOneVerdict, TextIsAccepted};
ghost use Rattle.bl_check_terms.specs.Writing.{WrittenIsAccepted};

/// What an accepted text says is an accepted certificate.
pub fn text_is_accepted()
    ensures { TextIsAccepted }
{}

/// What an accepted text states is true of the program.
pub fn acceptance_law()
    ensures { AcceptanceLaw }
{}

/// A text is accepted of one statement, or refused at one line by one rule, and never both.
pub fn have_one_verdict()
    ensures { HaveOneVerdict }
{}

/// The text of an accepted certificate is accepted, and says that certificate.
pub fn written_is_accepted()
    ensures { WrittenIsAccepted }
{}
