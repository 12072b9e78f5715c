//! Faults of datagrams.
use partition::FtiError;
use thiserror::Error;

/// Why a datagram is no packet: the first that holds, in this order. The header extensions are
/// looked at one after the other from the front, and each for `Extension`, `FtiLength` and `TwoFti`
/// in turn.
#[derive(Debug, Clone, Copy, PartialEq, Eq, Error)]
pub enum PacketFault {
    /// There are fewer than the 4 bytes that tell the header's form.
    #[error("P1 TooShort")]
    TooShort,
    /// The LCT version isn't 1.
    #[error("P2 Version")]
    Version,
    /// The protocol-specific indication isn't 0.
    #[error("P3 Psi")]
    Psi,
    /// The codepoint isn't 5, which stands for the FEC Encoding ID.
    #[error("P4 Codepoint")]
    Codepoint,
    /// There is no transport session identifier (TSI) or no transport object identifier (TOI).
    #[error("P5 NoIdentity")]
    NoIdentity,
    /// The header length leaves no room for the fixed fields, or passes the datagram's end.
    #[error("P6 HeaderLength")]
    HeaderLength,
    /// A header extension has length 0, or passes the header's end.
    #[error("P7 Extension")]
    Extension,
    /// EXT_FTI isn't three words long.
    #[error("P8 FtiLength")]
    FtiLength,
    /// A second EXT_FTI.
    #[error("P9 TwoFti")]
    TwoFti,
    /// The numbers in EXT_FTI are no valid FTI.
    #[error("P11 FtiValue {0}")]
    FtiValue(FtiError),
    /// What follows the header isn't a payload ID of 4 bytes and a symbol of the length that the
    /// FTI tells, or, where there is no EXT_FTI, of at least one byte.
    #[error("P12 PayloadLength")]
    PayloadLength,
}
