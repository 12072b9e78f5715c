//! The certificate: the polynomial of each byte column of each block.
ghost use Rattle.std.specs.Prelude.{◌≡◌, ◌≢◌, ◌↔◌, ◌*◌, ◌<◌, ℕ, List, None, true, false};
ghost use Rattle.std.specs.Prelude.{length, vec_len, MatchOption, OnOk, OnErr, IfOk, IfErr};
ghost use Rattle.std.specs.Prelude.{IfSome};
ghost use Rattle.std.specs.Io.KnownBytes.{Consumes, IsAtEnd, Appends};
ghost use Rattle.lists.specs.Bytes.{AreBytes};
ghost use Rattle.session.specs.Pieces.{AppendsSome};
ghost use Rattle.partition.specs.Fti.{IsValidFti, source_count, block_count};
ghost use Rattle.certificate.specs.Certificate.{Certificate as CertificateValue, IsCertificate};
ghost use Rattle.certificate.specs.Certificate.{IsIdentity, is_for as is_for_name};
ghost use Rattle.certificate.specs.Certificate.{coefficient_count, text_fault, IsTextOfSome};
ghost use Rattle.certificate.specs.Certificate.{coefficient as coefficient_of, unnamed, named_as};
ghost use Rattle.certificate.specs.Certificate.{coefficients_text, certificate_text};
ghost use Rattle.certificate.specs.Certificate.{IsCertFault, IsRowOf};
ghost use Rattle.certificate.specs.CertificateReading.{IsReadFault};

use crate::column_text::{rows_of, write_columns};
use crate::head::{read_head, write_head};
use crate::view::{CertificateView, part, rows_of_block};
use lists::are_bytes;
use partition::{Fti, FtiError};
use reception::Identity;
use session::{Failed, Read, ReadFault, Write, read_to_end, write_all};
use std::alloc::Global;
use std::borrow::CowSlice;
use std::marker::Model;
use thiserror::Error;

/// Why a certificate wasn't read, written or named. `Magic`, `Fti` and `Size` tell why bytes are no
/// certificate, in the order in which they are looked at.
#[derive(Debug, Clone, Copy, PartialEq, Eq, Error)]
pub enum CertFault {
    /// The first four bytes are neither `RSC1` nor `RSC2`.
    #[error("Z1 Magic")]
    Magic,
    /// The FTI in bytes 4 to 13, behind a name in bytes 24 to 33, isn't valid; the first fault of
    /// it.
    #[error("Z2 Fti {0}")]
    Fti(FtiError),
    /// There are other than 14 bytes, with a name 34, and T·E coefficients, T being the object's
    /// source symbols and E the symbol's bytes.
    #[error("Z3 Size")]
    Size,
    /// The reader or writer has failed.
    #[error("Z4 Io")]
    Io,
    /// There is no memory for the bytes that came.
    #[error("Z5 NoMemory")]
    NoMemory,
    /// It has another name.
    #[error("Z6 OtherIdentity")]
    OtherIdentity,
}

/// An FTI, for each byte column of each block the coefficients of its polynomial, the constant one
/// first, and maybe a name: whose packets they are certified for.
#[derive(Drop)]
pub struct Certificate {
    fti: Fti,
    name: Option<Identity>,
    // Blocks rising, in a block a row for each coefficient, which has its byte of each column.
    coefficients: Vec<u8>,
}

impl Model for Certificate {
    ghost use Rattle.certificate.specs.Certificate.{Certificate as CertificateValue, IsCertificate};

    ghost Value = { CertificateValue };

    ghost view = { λ z.
        record { fti = z.fti; name = z.name; coefficients = z.coefficients.items } };

    ghost invariant = { λ z. IsCertificate
        (record { fti = z.fti; name = z.name; coefficients = z.coefficients.items }) };
}

// How many coefficients a certificate of this FTI has.
pub(crate) fn coefficients_of(fti: &Fti) -> u64
    ensures count { result ≡ coefficient_count fti.now }
    ensures valid { IsValidFti fti.now }
{
    fti.symbol_count() * u64::from(fti.symbol_length())
}

// Whether a certificate with this name can be one of the identity's packets: it has none, or this
// one.
pub(crate) fn is_for(identity: &Identity, name: &Option<Identity>) -> bool
    ensures { result ≡ is_for_name identity.now name.now }
{
    match name {
        Some(name) => name.tsi == identity.tsi && name.toi == identity.toi,
        None => true,
    }
}

// All bytes up to the end, where there are `count`.
fn read_coefficients<R: Read>(
    alloc: Global,
    reader: &mut R,
    count: u64,
) -> Result<Vec<u8>, CertFault>
    ensures ok { IfOk result (λ v.
        Consumes (R.remaining reader.old) (R.remaining reader.new) v.items) }
    ensures end { OnOk result (IsAtEnd (R.remaining reader.new)) }
    ensures count { IfOk result (λ v. vec_len v ≡ count) }
    ensures size { IfErr result (λ e.
        e ≡ CertFault.Size → IfSome (R.remaining reader.old) (λ x. length x ≢ count)) }
    ensures fault { IfErr result (λ e. IsReadFault e (R.failed reader.new)) }
    ensures unsound { IfErr result (λ e. e ≡ CertFault.Io → R.sound reader.old ≡ false) }
{
    match read_to_end(alloc, reader) {
        Ok(bytes) if bytes.len() as u64 == count => Ok(bytes),
        Ok(_) => Err(CertFault::Size),
        Err(ReadFault::Io) => Err(CertFault::Io),
        Err(ReadFault::NoMemory) => Err(CertFault::NoMemory),
    }
}

impl Certificate {
    /// The certificate without a name of these coefficients: blocks rising, in a block rows rising,
    /// one of each coefficient from the constant one on, with its byte of each column. `None` where
    /// there are other than T·E, source symbols of the object times bytes of a symbol, and only
    /// then.
    pub fn from_parts(fti: Fti, coefficients: Vec<u8>) -> Option<Certificate>
        ensures parts { MatchOption result (vec_len coefficients ≢ coefficient_count fti)
            (λ z. z ≡ unnamed fti coefficients.items) }
        ensures count { IfSome result (λ z. vec_len coefficients ≡ coefficient_count fti) }
        ensures certificate { IfSome result IsCertificate }
    {
        if coefficients.len() as u64 != coefficients_of(&fti) {
            return None;
        }
        are_bytes(coefficients.as_slice());
        Some(Certificate {
            fti,
            name: None,
            coefficients,
        })
    }

    /// The certificate's FTI, which is valid.
    pub fn fti(&self) -> Fti
        ensures value { result ≡ self.now.fti }
        ensures certificate { IsCertificate self.now }
    {
        self.fti
    }

    /// Whose packets it certifies, if it says so.
    pub fn name(&self) -> Option<Identity>
        ensures value { result ≡ self.now.name }
        ensures identity { IfSome result IsIdentity }
    {
        self.name
    }

    // Whether it has no name, or this one.
    pub(crate) fn is_for(&self, identity: &Identity) -> bool
        ensures { result ≡ is_for_name identity.now self.now.name }
    {
        is_for(identity, &self.name)
    }

    // Refuses a name where it has another one.
    fn may_take(&self, identity: &Identity) -> Result<(), CertFault>
        ensures own { OnOk result (is_for_name identity.now self.now.name ≡ true) }
        ensures other { IfErr result (λ e. (e ≡ CertFault.OtherIdentity)
            × (is_for_name identity.now self.now.name ≡ false)) }
    {
        if self.is_for(identity) {
            Ok(())
        } else {
            Err(CertFault::OtherIdentity)
        }
    }

    /// The certificate's polynomials with this name. `OtherIdentity` where it has another one, and
    /// only then; `NoMemory` where there is no memory for a copy.
    ///
    /// The identity's TSI is below 2^48, its TOI below 2^112 (RFC 5651, section 5.1).
    pub fn named(&self, alloc: Global, identity: Identity) -> Result<Certificate, CertFault>
        requires { IsIdentity identity }
        ensures named { IfOk result (λ z. z ≡ named_as identity self.now) }
        ensures own { OnOk result (is_for_name identity self.now.name ≡ true) }
        ensures other { IfErr result (λ e. e ≢ CertFault.NoMemory
            → (e ≡ CertFault.OtherIdentity) × (is_for_name identity self.now.name ≡ false)) }
    {
        self.may_take(&identity)?;
        match self.coefficients.to_vec(alloc) {
            Ok(coefficients) => Ok(Certificate {
                fti: self.fti,
                name: Some(identity),
                coefficients,
            }),
            Err(_) => Err(CertFault::NoMemory),
        }
    }

    /// This certificate with this name, without a copy. `OtherIdentity` where it has another one.
    pub fn into_named(self, identity: Identity) -> Result<Certificate, CertFault>
        requires { IsIdentity identity }
        ensures named { IfOk result (λ z. z ≡ named_as identity self) }
        ensures own { OnOk result (is_for_name identity self.name ≡ true) }
        ensures other { IfErr result (λ e. (e ≡ CertFault.OtherIdentity)
            × (is_for_name identity self.name ≡ false)) }
    {
        self.may_take(&identity)?;
        Ok(Certificate {
            fti: self.fti,
            name: Some(identity),
            coefficients: self.coefficients,
        })
    }

    /// The same certificate, with its coefficients borrowed.
    pub fn view(&self) -> CertificateView<'_>
        ensures { result ≡ self.now }
    {
        let rows = CowSlice::Borrowed(self.coefficients.as_slice());
        CertificateView::of_rows(self.fti, self.name, rows)
    }

    /// The same certificate, as a view that owns its coefficients.
    pub fn into_view<'a>(self) -> CertificateView<'a>
        ensures { result ≡ self }
    {
        CertificateView::of_rows(self.fti, self.name, CowSlice::Owned(self.coefficients))
    }

    /// Coefficient `i` of the polynomials of block `b`: its byte of each column, E bytes. It needs
    /// that the FTI has the block and this as many source symbols.
    pub fn row(&self, b: u32, i: usize) -> &[u8]
        requires block { b < block_count self.now.fti }
        requires symbol { i < source_count self.now.fti b }
        ensures len { length result.now ≡ self.now.fti.symbol_length }
        ensures value { IsRowOf self.now b i result.now }
    {
        let width = usize::from(self.fti.symbol_length());
        let rows = rows_of_block(&self.fti, self.coefficients.as_slice(), b);
        part(rows, i * width, width)
    }

    /// Coefficient `i` of the polynomial of byte column `c` of block `b`.
    pub fn coefficient(&self, b: u32, c: usize, i: usize) -> u8
        requires block { b < block_count self.now.fti }
        requires column { c < self.now.fti.symbol_length }
        requires symbol { i < source_count self.now.fti b }
        ensures { result ≡ coefficient_of self.now b c i }
    {
        self.row(b, i)[c]
    }

    /// The certificate in all bytes up to the reader's end, where the reader then is. Memory grows
    /// with the bytes that come, never with what the first ones claim. `Magic`, `Fti` and `Size`
    /// tell why the bytes are none, `Io` that the reader has failed, which a sound one never does,
    /// `NoMemory` that memory lacks. After a fault it isn't told how much was consumed.
    pub fn read<R: Read>(alloc: Global, reader: &mut R) -> Result<Certificate, CertFault>
        // All that was left is the certificate's text.
        ensures ok { IfOk result (λ z.
            IfSome (R.remaining reader.old) (λ x. x ≡ certificate_text z)) }
        ensures certificate { IfOk result IsCertificate }
        ensures end { OnOk result (IsAtEnd (R.remaining reader.new)) }
        ensures fault { IfErr result (λ e.
            IsCertFault e (R.remaining reader.old) (R.failed reader.new)) }
        ensures unsound { IfErr result (λ e. e ≡ CertFault.Io → R.sound reader.old ≡ false) }
    {
        let head = read_head(reader)?;
        let text = match read_coefficients(alloc, reader, coefficients_of(&head.fti)) {
            Ok(text) => text,
            Err(fault) => return Err(fault),
        };
        let coefficients = match head.name {
            Some(_) => text,
            None => match rows_of(alloc, &head.fti, &text) {
                Ok(rows) => rows,
                Err(_) => return Err(CertFault::NoMemory),
            },
        };
        are_bytes(coefficients.as_slice());
        Ok(Certificate {
            fti: head.fti,
            name: head.name,
            coefficients,
        })
    }

    /// Writes the certificate's text, `RSC1` where it has no name, else `RSC2`: the name, the FTI
    /// in ten bytes and the coefficients. `Io`, the only fault, comes only where the writer has
    /// failed, and never where it has room for the text. It has a beginning of it then.
    pub fn write<W: Write>(&self, writer: &mut W) -> Result<(), CertFault>
        ensures ok { OnOk result
            (Appends (W.contents writer.old) (W.contents writer.new) (certificate_text self.now)) }
        ensures err { OnErr result
            (AppendsSome (W.contents writer.old) (W.contents writer.new)
            (certificate_text self.now)) }
        ensures io { IfErr result (λ e. (e ≡ CertFault.Io) × (W.failed writer.new ≡ true)) }
        ensures full { OnErr result (W.room writer.old < length (certificate_text self.now)) }
    {
        let Ok(()) = write_head(writer, &self.name, &self.fti) else {
            return Err(CertFault::Io);
        };
        let Ok(()) = self.write_coefficients(writer) else {
            return Err(CertFault::Io);
        };
        Ok(())
    }

    // Writes the coefficients, column by column where there is no name, else row by row.
    fn write_coefficients<W: Write>(&self, writer: &mut W) -> Result<(), Failed>
        ensures ok { OnOk result (Appends (W.contents writer.old) (W.contents writer.new)
            (coefficients_text self.now.name self.now)) }
        ensures err { OnErr result (AppendsSome (W.contents writer.old) (W.contents writer.new)
            (coefficients_text self.now.name self.now)) }
        ensures fails { OnErr result (W.failed writer.new ≡ true) }
        ensures full { OnErr result (W.room writer.old
            < length (coefficients_text self.now.name self.now)) }
    {
        match self.name {
            Some(_) => write_all(writer, self.coefficients.as_slice()),
            None => write_columns(self, writer),
        }
    }
}

/// A law to cite: no two certificates have one text. It does nothing.
pub fn one_certificate()
    ensures { (x y : CertificateValue)
        → IsCertificate x
        → IsCertificate y
        → certificate_text x ≡ certificate_text y
        → x ≡ y }
{}

/// A law to cite: bytes have no fault exactly where they are the text of a certificate. It does
/// nothing.
pub fn texts_without_fault()
    ensures { (x : List ℕ) → AreBytes x → (text_fault x ≡ None) ↔ IsTextOfSome x }
{}
