//! What stands in a certificate's file before the coefficients: a magic number, maybe whose
//! certificate it is, and the FTI.
ghost use Rattle.std.specs.Prelude.{◌≡◌, ◌≤◌, ◌<◌, ◌+◌, length, take, None, IfOk, IfErr};
ghost use Rattle.std.specs.Prelude.{IfSome, OnOk, OnErr, true, false, nat_eq};
ghost use Rattle.std.specs.List.{starts_with};
ghost use Rattle.std.specs.Io.KnownBytes.{Consumes, IsAtEnd, Appends};
ghost use Rattle.session.specs.Pieces.{AppendsSome};
ghost use Rattle.partition.specs.FtiFault.{fti_fault};
ghost use Rattle.certificate.specs.Certificate.{IsIdentity, magic, magic_of_named, name_text};
ghost use Rattle.certificate.specs.Certificate.{head_text, IsCertFault};
ghost use Rattle.certificate.specs.CertificateReading.{told_name, IsTold, IsHeadFault, IsHeadOf};
ghost use Rattle.certificate.specs.CertificateReading.{head_length as length_of};

use crate::certificate::CertFault;
use byteorder::{BigEndian, ByteOrder};
use partition::Fti;
use reception::Identity;
use session::{Failed, Read, Write, fill, write_all};

const MAGIC: [u8; 4] = *b"RSC1";

const MAGIC_OF_NAMED: [u8; 4] = *b"RSC2";

// The bytes of a head without a name, and with one.
pub(crate) const LENGTH: usize = 14;

pub(crate) const LENGTH_OF_NAMED: usize = 34;

/// What a certificate's first bytes tell: whose it is, if it has a name, and its FTI.
#[derive(Clone, Copy)]
pub(crate) struct Head {
    pub(crate) name: Option<Identity>,
    pub(crate) fti: Fti,
}

fn write_name(out: &mut [u8], name: &Identity)
    requires room { length out.old ≡ 20 }
    requires identity { IsIdentity name.now }
    ensures { out.new ≡ name_text name.now }
{
    BigEndian::write_u48(out, name.tsi);
    BigEndian::write_uint128(&mut out[6..], name.toi, 14);
}

// Puts a head at the front of `out`, and answers how long it is.
#[tactic(auto, unfolding(crate::specs::Certificate::head_text))]
fn put_head(out: &mut [u8], name: &Option<Identity>, fti: &Fti) -> usize
    requires room { length out.old ≡ LENGTH_OF_NAMED }
    requires name { IfSome name.now IsIdentity }
    ensures text { take result out.new ≡ head_text name.now fti.now }
    ensures few { result ≤ LENGTH_OF_NAMED }
    ensures len { length out.new ≡ LENGTH_OF_NAMED }
{
    match name {
        None => {
            out[..4].copy_from_slice(&MAGIC);
            fti.write_to(&mut out[4..LENGTH]);
            LENGTH
        }
        Some(name) => {
            out[..4].copy_from_slice(&MAGIC_OF_NAMED);
            write_name(&mut out[4..24], name);
            fti.write_to(&mut out[24..]);
            LENGTH_OF_NAMED
        }
    }
}

/// Writes what stands before the coefficients in the file of a certificate with this name, or
/// without one, and this FTI: 34 or 14 bytes. `Failed` comes only where the writer has failed, and
/// never where it has room for them. It has a beginning of them then.
///
/// The name's TSI is below 2^48, its TOI below 2^112 (RFC 5651, section 5.1).
pub fn write_head<W: Write>(
    writer: &mut W,
    name: &Option<Identity>,
    fti: &Fti,
) -> Result<(), Failed>
    requires { IfSome name.now IsIdentity }
    ensures ok { OnOk result (Appends (W.contents writer.old) (W.contents writer.new)
        (head_text name.now fti.now)) }
    ensures err { OnErr result (AppendsSome (W.contents writer.old) (W.contents writer.new)
        (head_text name.now fti.now)) }
    ensures fails { OnErr result (W.failed writer.new ≡ true) }
    ensures full { OnErr result (W.room writer.old < length (head_text name.now fti.now)) }
    ensures fills { OnOk result (W.room writer.old
        ≤ W.room writer.new + length (head_text name.now fti.now)) }
{
    let mut head = [0u8; LENGTH_OF_NAMED];
    let length = put_head(&mut head, name, fti);
    write_all(writer, &head[..length])
}

// How long the head is that begins with these bytes, by its magic number.
fn head_length(front: &[u8]) -> usize
    ensures { result ≡ length_of front.now }
{
    if front.starts_with(&MAGIC_OF_NAMED) {
        LENGTH_OF_NAMED
    } else {
        LENGTH
    }
}

fn read_name(bytes: &[u8]) -> Identity
    requires { length bytes.now ≡ 20 }
    ensures { result ≡ told_name bytes.now }
{
    Identity {
        tsi: BigEndian::read_u48(bytes),
        toi: BigEndian::read_uint128(&bytes[6..], 14),
    }
}

// What the bytes of a head without a name tell, of which there are fewer only where the file ends.
fn plain_head(bytes: &[u8]) -> Result<Head, CertFault>
    requires magic { starts_with nat_eq bytes.now magic ≡ true }
    requires other { starts_with nat_eq bytes.now magic_of_named ≡ false }
    requires few { length bytes.now ≤ LENGTH }
    ensures ok { IfOk result (IsHeadOf bytes.now) }
    ensures told { IfErr result IsTold }
    ensures fault { IfErr result (IsHeadFault bytes.now) }
{
    if bytes.len() < LENGTH {
        return Err(CertFault::Size);
    }
    let (_, fti) = bytes.split_at(4);
    match Fti::from_bytes(fti, None) {
        Ok(fti) => Ok(Head { name: None, fti }),
        Err(e) => Err(CertFault::Fti(e)),
    }
}

// What the bytes of a head with a name tell, of which there are fewer only where the file ends.
fn named_head(bytes: &[u8]) -> Result<Head, CertFault>
    requires magic { starts_with nat_eq bytes.now magic_of_named ≡ true }
    requires few { length bytes.now ≤ LENGTH_OF_NAMED }
    ensures ok { IfOk result (IsHeadOf bytes.now) }
    ensures told { IfErr result IsTold }
    ensures fault { IfErr result (IsHeadFault bytes.now) }
{
    if bytes.len() < LENGTH_OF_NAMED {
        return Err(CertFault::Size);
    }
    let (_, behind) = bytes.split_at(4);
    let (name, fti) = behind.split_at(20);
    let name = Some(read_name(name));
    match Fti::from_bytes(fti, None) {
        Ok(fti) => Ok(Head { name, fti }),
        Err(e) => Err(CertFault::Fti(e)),
    }
}

// What these bytes tell, of which there are fewer than a head has only where the file ends.
fn told_head(bytes: &[u8]) -> Result<Head, CertFault>
    requires { length bytes.now ≤ length_of bytes.now }
    ensures ok { IfOk result (IsHeadOf bytes.now) }
    ensures told { IfErr result IsTold }
    ensures fault { IfErr result (IsHeadFault bytes.now) }
{
    if bytes.starts_with(&MAGIC_OF_NAMED) {
        return named_head(bytes);
    }
    if bytes.starts_with(&MAGIC) {
        return plain_head(bytes);
    }
    Err(CertFault::Magic)
}

// Fills these bytes with a head: fourteen, and twenty more where the magic number is that of a head
// with a name. Answers how many came, fewer only at the end.
fn fill_head<R: Read>(reader: &mut R, bytes: &mut [u8]) -> Result<usize, Failed>
    requires { length bytes.old ≡ LENGTH_OF_NAMED }
    ensures len { length bytes.new ≡ LENGTH_OF_NAMED }
    ensures bytes { IfOk result (λ n.
        Consumes (R.remaining reader.old) (R.remaining reader.new) (take n bytes.new)) }
    ensures most { IfOk result (λ n. n ≤ length_of (take n bytes.new)) }
    ensures end { IfOk result (λ n.
        n < length_of (take n bytes.new) → IsAtEnd (R.remaining reader.new)) }
    ensures fails { OnErr result (R.failed reader.new ≡ true) }
    ensures unsound { OnErr result (R.sound reader.old ≡ false) }
    ensures stays { R.sound reader.new ≡ R.sound reader.old }
{
    let (front, behind) = bytes.split_at_mut(LENGTH);
    let got = fill(reader, front)?;
    if got < LENGTH || head_length(front) == LENGTH {
        return Ok(got);
    }
    let more = fill(reader, behind)?;
    Ok(LENGTH + more)
}

/// The head in a reader's next bytes: fourteen, or where these begin with the magic number of a
/// head with a name, twenty more. `Magic`, `Fti` and `Size` tell why no certificate begins there,
/// `Io` that the reader has failed.
pub(crate) fn read_head<R: Read>(reader: &mut R) -> Result<Head, CertFault>
    ensures ok { IfOk result (λ h.
        Consumes (R.remaining reader.old) (R.remaining reader.new) (head_text h.name h.fti)) }
    ensures valid { IfOk result (λ h. fti_fault h.fti ≡ None) }
    ensures name { IfOk result (λ h. IfSome h.name IsIdentity) }
    ensures fault { IfErr result (λ e.
        IsCertFault e (R.remaining reader.old) (R.failed reader.new)) }
    ensures unsound { IfErr result (λ e. e ≡ CertFault.Io → R.sound reader.old ≡ false) }
    ensures stays { R.sound reader.new ≡ R.sound reader.old }
{
    let mut bytes = [0u8; LENGTH_OF_NAMED];
    let Ok(got) = fill_head(reader, &mut bytes) else {
        return Err(CertFault::Io);
    };
    told_head(&bytes[..got])
}
