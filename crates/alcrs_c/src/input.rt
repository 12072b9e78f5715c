//! What C passes.
ghost use Rattle.std.specs.Prelude.{◌≡◌, false, Some, IfOk, IfErr};
ghost use Rattle.certificate.specs.Certificate.{IsCertificate, certificate_text, IsCertFault};
ghost use Rattle.alcrs_c.specs.Asked.{identity_of};

use certificate::{CertFault, Certificate};
use reception::Identity;
use session::Pieces;
use std::alloc::Global;

/// The identity of a TSI and of the two halves of a TOI.
pub(crate) fn identity(tsi: u64, toi_high: u64, toi_low: u64) -> Identity
    ensures { result ≡ identity_of tsi toi_high toi_low }
{
    Identity {
        tsi,
        toi: u128::from(toi_high) * (1 << 64) + u128::from(toi_low),
    }
}

/// The certificate whose text the bytes are.
pub(crate) fn read_certificate(alloc: Global, bytes: &[u8]) -> Result<Certificate, CertFault>
    ensures ok { IfOk result (λ z. bytes.now ≡ certificate_text z) }
    ensures certificate { IfOk result IsCertificate }
    ensures fault { IfErr result (λ e. IsCertFault e (Some bytes.now) false) }
{
    Certificate::read(alloc, &mut Pieces::new(bytes, usize::MAX))
}
