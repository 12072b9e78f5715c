//! A certificate whose coefficients are its own or borrowed.
ghost use Rattle.std.specs.Prelude.{◌≡◌, ◌<◌, ◌≤◌, ◌+◌, ◌*◌, false, Some, length, take, drop};
ghost use Rattle.std.specs.Prelude.{IfOk, IfErr};
ghost use Rattle.std.specs.Cow.{cow_slice_items};
ghost use Rattle.partition.specs.Fti.{block_count, source_count};
ghost use Rattle.certificate.specs.Certificate.{Certificate as CertificateValue, IsCertificate};
ghost use Rattle.certificate.specs.Certificate.{certificate_text, coefficient_count, IsCertFault};
ghost use Rattle.certificate.specs.Certificate.{is_for as is_for_name};
ghost use Rattle.certificate.specs.CoefficientRows.{AreRowsOf};

use crate::certificate::{CertFault, Certificate, coefficients_of, is_for};
use crate::head::{LENGTH_OF_NAMED, read_head};
use lists::are_bytes;
use partition::Fti;
use reception::Identity;
use session::Pieces;
use std::alloc::Global;
use std::borrow::CowSlice;
use std::marker::Model;

/// So many bytes from a place on.
pub(crate) fn part(bytes: &[u8], from: usize, count: usize) -> &[u8]
    requires { from + count ≤ length bytes.now }
    ensures value { result.now ≡ take count (drop from bytes.now) }
    ensures len { length result.now ≡ count }
{
    &bytes[from..from + count]
}

/// The rows of coefficients of block `b`, one behind the other, among those of all blocks.
pub(crate) fn rows_of_block<'a>(fti: &Fti, coefficients: &'a [u8], b: u32) -> &'a [u8]
    requires block { b < block_count fti.now }
    requires count { length coefficients.now ≡ coefficient_count fti.now }
    ensures len { length result.now ≡ source_count fti.now b * fti.now.symbol_length }
    ensures rows { (z : CertificateValue) → IsCertificate z → z.fti ≡ fti.now
        → z.coefficients ≡ coefficients.now → AreRowsOf z b result.now }
{
    let width = usize::from(fti.symbol_length());
    let from = fti.start(b) as usize * width;
    part(coefficients, from, fti.k(b) * width)
}

/// A certificate whose coefficients are its own, or are borrowed: of a [`Certificate`], or of the
/// bytes of one.
#[derive(Drop)]
pub struct CertificateView<'a> {
    fti: Fti,
    name: Option<Identity>,
    // Blocks rising, in a block a row for each coefficient.
    coefficients: CowSlice<'a, u8, Global>,
}

impl<'a> Model for CertificateView<'a> {
    ghost use Rattle.std.specs.Cow.{cow_slice_items};
    ghost use Rattle.certificate.specs.Certificate.{Certificate as CertificateValue, IsCertificate};

    ghost Value = { CertificateValue };

    ghost view = { λ z. record {
      fti = z.fti;
      name = z.name;
      coefficients = cow_slice_items z.coefficients;
    } };

    ghost invariant = { λ z. IsCertificate (record {
      fti = z.fti;
      name = z.name;
      coefficients = cow_slice_items z.coefficients;
    }) };
}

impl<'a> CertificateView<'a> {
    // The certificate of these rows.
    pub(crate) fn of_rows(
        fti: Fti,
        name: Option<Identity>,
        coefficients: CowSlice<'a, u8, Global>,
    ) -> CertificateView<'a>
        requires { IsCertificate (record {
          fti = fti;
          name = name;
          coefficients = cow_slice_items coefficients;
        }) }
        ensures { result ≡ record {
          fti = fti;
          name = name;
          coefficients = cow_slice_items coefficients.entry;
        } }
    {
        CertificateView {
            fti,
            name,
            coefficients,
        }
    }

    /// The certificate whose text the bytes are. With a name it has its coefficients where they
    /// are, in the bytes; without one they stand column by column there, and it has a copy of its
    /// own. `Magic`, `Fti` and `Size` tell why the bytes are none, `NoMemory` that there is none
    /// for the copy. There is no other fault.
    pub fn from_text(alloc: Global, bytes: &'a [u8]) -> Result<CertificateView<'a>, CertFault>
        ensures ok { IfOk result (λ z. bytes.now ≡ certificate_text z) }
        ensures certificate { IfOk result IsCertificate }
        ensures fault { IfErr result (λ e. IsCertFault e (Some bytes.now) false) }
    {
        let mut text = Pieces::new(bytes, usize::MAX);
        let head = read_head(&mut text)?;
        let Some(name) = head.name else {
            return Ok(Certificate::read(alloc, &mut Pieces::new(bytes, usize::MAX))?.into_view());
        };
        let coefficients = &bytes[LENGTH_OF_NAMED..];
        if coefficients.len() as u64 != coefficients_of(&head.fti) {
            return Err(CertFault::Size);
        }
        are_bytes(coefficients);
        Ok(CertificateView {
            fti: head.fti,
            name: Some(name),
            coefficients: CowSlice::Borrowed(coefficients),
        })
    }

    /// The certificate's FTI, which is valid.
    pub fn fti(&self) -> Fti
        ensures value { result ≡ self.now.fti }
        ensures certificate { IsCertificate self.now }
    {
        self.fti
    }

    /// Whether it has no name, or this one.
    pub fn is_for(&self, identity: &Identity) -> bool
        ensures { result ≡ is_for_name identity.now self.now.name }
    {
        is_for(identity, &self.name)
    }

    /// The rows of coefficients of block `b`, one behind the other.
    pub fn rows(&self, b: u32) -> &[u8]
        requires { b < block_count self.now.fti }
        ensures len { length result.now
            ≡ source_count self.now.fti b * self.now.fti.symbol_length }
        ensures rows { AreRowsOf self.now b result.now }
    {
        rows_of_block(&self.fti, self.coefficients.as_slice(), b)
    }
}
