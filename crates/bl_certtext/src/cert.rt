//! The lines of a certificate, and why a text isn't one.
ghost use Rattle.std.specs.Prelude.{◌≡◌};
ghost use Rattle.bl_certtext.specs.declared.cert.CertError.TheVariants.{Memory};

use bl_certline::CertLine;
use bl_model::Listed;
use std::alloc::{AllocError, AllocFailed};

/// The lines of a text that has the form of a certificate.
#[derive(Debug, Drop)]
pub struct RawCert {
    pub lines: Listed<CertLine>,
}

/// Why a text isn't read.
#[derive(Clone, Copy, Debug, PartialEq, Eq)]
pub enum CertError {
    /// The text hasn't the form of a certificate of the model: this line, counted from 1, is the first that isn't
    /// canonical or may not stand where it stands.
    Fault { line: u64 },
    Memory,
}

impl From<AllocError> for CertError {
    ghost from_gives = { λ _ error. error ≡ Memory };

    fn from(_: AllocError) -> CertError {
        CertError::Memory
    }
}

impl<T: Drop> From<AllocFailed<T>> for CertError {
    ghost from_gives = { λ _ error. error ≡ Memory };

    fn from(_: AllocFailed<T>) -> CertError {
        CertError::Memory
    }
}
