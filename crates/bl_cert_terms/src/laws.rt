//! Laws of accepted certificates.
ghost use Rattle.bl_cert_terms.specs.Certificates.{AcceptedLaw, CutsAreValid, CutsInTurn, EntriesAreTrue};
ghost use Rattle.bl_cert_terms.specs.Certificates.{OneEntryForLink, OneMoreRises};

/// What an accepted certificate states is true of the program.
pub fn accepted_law()
    ensures { AcceptedLaw }
{}

/// What the entries of an accepted certificate say of their links is true.
pub fn entries_are_true()
    ensures { EntriesAreTrue }
{}

/// Every bilevel feasible point of a cut's box meets the cut's row.
pub fn cuts_are_valid()
    ensures { CutsAreValid }
{}

/// No two entries have one link, so a look-up of a link has one answer.
pub fn one_entry_for_link()
    ensures { OneEntryForLink }
{}

/// Entries that are read one by one rise where each link is compared with the last one's.
pub fn one_more_rises()
    ensures { OneMoreRises }
{}

/// Cuts that are read one by one are cuts where each is shown by those before it.
pub fn cuts_in_turn()
    ensures { CutsInTurn }
{}
