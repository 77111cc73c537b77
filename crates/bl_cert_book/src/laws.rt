//! Laws of the certificates of books.
ghost use Rattle.bl_cert_book.specs.BookCertificates.{FinishedBookHasCertificate, FinishedBookIsAccepted};

/// The certificate of every finished run is accepted.
pub fn finished_book_is_accepted()
    ensures { FinishedBookIsAccepted }
{}

/// Every finished run has a certificate.
pub fn finished_book_has_certificate()
    ensures { FinishedBookHasCertificate }
{}
