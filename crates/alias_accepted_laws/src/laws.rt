//! That the certificate of an inference is accepted.

ghost use Rattle.alias_accepted_laws.specs.Complete.{CertificatesAreAccepted};

/// The certificate of what is inferred of a unit that is well formed is accepted for it, or no number is left for a report. Does nothing.
pub fn accepted_certificates_law()
    ensures { CertificatesAreAccepted }
{}
