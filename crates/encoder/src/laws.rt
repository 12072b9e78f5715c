//! What encoding, certifying and checking give together.
ghost use Rattle.std.specs.Prelude.{ℕ, List};
ghost use Rattle.certificate.specs.Certificate.{Certificate};
ghost use Rattle.encoder.specs.Certified.{CertifiesSent, ChecksYes};

/// A check says yes to what `encode` wrote of an object, whatever the TSI, the TOI, the order and
/// the packets that carry the FTI, with the certificate that `certify` made of it.
pub fn sent_checks_yes()
    ensures { (object : List ℕ) (z : Certificate)
        → CertifiesSent object z → ChecksYes object z }
{}
