//! The definitions on small certificates that were worked out by hand.
ghost use Rattle.bl_cert_terms.specs.Examples.{WorkedCertificates};

/// Two certificates are accepted, and each with one thing changed is not.
pub fn worked_certificates()
    ensures { WorkedCertificates }
{}
