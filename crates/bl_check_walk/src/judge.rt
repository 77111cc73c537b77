//! Who judges the lines of a certificate.
ghost use Rattle.std.specs.Prelude.{◌≡◌, IfOk};
ghost use Rattle.bl_terms.specs.Programs.{Program};
ghost use Rattle.bl_cert_terms.specs.Certificates.{Certificate};
ghost use Rattle.bl_certtext.specs.Places.{lower_count};
ghost use Rattle.bl_check_walk.specs.Judges.{Stands, IsVerdict};

use crate::site::Site;
use bl_certline::CertLine;
use bl_check_terms::CertRule;
use bl_model::Bilevel;
use std::alloc::{AllocError, Global};

/// A judge of the lines of a certificate, who keeps of those before as much as he needs.
pub trait Judge {
    /// This certificate was said of the program so far.
    ghost says: { Self → Program → Certificate → Type 0 };

    /// Judges a line that has its form and place, and takes it over where it breaks no rule; else it tells the first
    /// rule that it breaks. `lower` is the count of the follower's rows. After a broken rule or an error nothing is
    /// known of the judge.
    fn take(
        &mut self,
        alloc: Global,
        model: &Bilevel,
        lower: usize,
        site: Site,
        line: CertLine,
    ) -> Result<Option<CertRule>, AllocError>
        requires lower { lower ≡ lower_count model.now }
        requires stands { Stands (says self.old model.now) model.now site line }
        ensures { IfOk result (IsVerdict (says self.old model.now) (says self.new model.now) model.now site line) };
}
