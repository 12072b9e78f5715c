//! The header extensions (RFC 5651, section 5.2), and EXT_FTI among them (RFC 5510, section
//! 5.2.4.1).
ghost use Rattle.std.specs.Prelude.{◌≡◌, ◌<◌, length, IfOk, IfErr, IfSome, None, Some, option_map};
ghost use Rattle.std.specs.Prelude.{Ok, Err};
ghost use Rattle.partition.specs.FtiFault.{fti_fault};
ghost use Rattle.alc.specs.Computed.{size_of, walk, fti_in};

use crate::fault::PacketFault;
use partition::Fti;

/// The header extension type of EXT_FTI.
pub(crate) const EXT_FTI: u8 = 64;

/// The bytes of EXT_FTI: its type, its length in words, and ten bytes of content.
pub(crate) const EXT_FTI_SIZE: usize = 12;

// The bytes that the extension in front says it takes: one word, or below type 128 as many as its
// second byte says.
fn size_in_front(rest: &[u8]) -> usize
    requires { 0 < length rest.now }
    ensures { result ≡ size_of rest.now }
{
    match rest {
        [kind, words, ..] if *kind < 128 => 4 * usize::from(*words),
        _ => 4,
    }
}

/// The content of EXT_FTI among the header extensions, where they are whole and at most one of them
/// is EXT_FTI.
pub(crate) fn fti_content(extensions: &[u8]) -> Result<Option<&[u8]>, PacketFault>
    ensures found { IfOk result (λ found.
        walk (length extensions.now) extensions.now None
        ≡ Ok (option_map (λ content. content.now) found)) }
    ensures fault { IfErr result
        (λ e. walk (length extensions.now) extensions.now None ≡ Err e) }
    ensures ten { IfOk result (λ found. IfSome found (λ content. length content.now ≡ 10)) }
{
    let mut rest = extensions;
    let mut seen = None;
    while !rest.is_empty() {
        let size = size_in_front(rest);
        if size == 0 || rest.len() < size {
            return Err(PacketFault::Extension);
        }
        let (extension, behind) = rest.split_at(size);
        if extension[0] == EXT_FTI {
            if size != EXT_FTI_SIZE {
                return Err(PacketFault::FtiLength);
            }
            if seen.is_some() {
                return Err(PacketFault::TwoFti);
            }
            seen = Some(&extension[2..]);
        }
        rest = behind;
    }
    Ok(seen)
}

/// The FTI in the content of EXT_FTI. It is found faster where it's the one that is known.
#[tactic(auto, using(crate::proofs::FtiFields::content_is))]
pub(crate) fn fti_of(content: &[u8], known: Option<&Fti>) -> Result<Fti, PacketFault>
    requires { length content.now ≡ 10 }
    ensures numbers { IfOk result (λ f. f ≡ fti_in content.now) }
    ensures no_fault { IfOk result (λ _. fti_fault (fti_in content.now) ≡ None) }
    ensures fault { IfErr result (λ r.
        option_map PacketFault.FtiValue (fti_fault (fti_in content.now)) ≡ Some r) }
{
    Fti::from_bytes(content, known).map_err(PacketFault::FtiValue)
}
