//! What a request names.
ghost use Rattle.std.specs.Prelude.{◌≡◌};
ghost use Rattle.request.specs.Outputs.{output_of};

use crate::requests::{Output, Request};
use reception::Identity;

impl<'a> Request<'a> {
    /// The session that it reads, if it reads just one.
    pub fn session(&self) -> Option<&'a str> {
        match self {
            Request::Check(request) => Some(request.session),
            Request::Twin(request) => Some(request.session),
            Request::Show(request) => Some(request.session),
            Request::Decode(request) => Some(request.session),
            Request::Follow(request) => Some(request.session),
            Request::Drop(request) => Some(request.session),
            Request::Salvage(request) => Some(request.session),
            _ => None,
        }
    }

    /// The object that it reads.
    pub fn object(&self) -> Option<&'a str> {
        match self {
            Request::Check(request) => Some(request.object),
            Request::Twin(request) => Some(request.object),
            Request::Encode(request) => Some(request.object),
            Request::Certify(request) => Some(request.object),
            _ => None,
        }
    }

    /// The certificate that it reads.
    pub fn certificate(&self) -> Option<&'a str> {
        match self {
            Request::Check(request) => Some(request.certificate),
            Request::Twin(request) => Some(request.certificate),
            Request::Convert(request) => Some(request.certificate),
            _ => None,
        }
    }

    /// The file that it writes.
    pub fn output(&self) -> Option<Output<'a>>
        ensures { result ≡ output_of self.now }
    {
        match self {
            Request::Check(request) => {
                let name = request.picture?;
                Some(Output {
                    name,
                    no_clobber: request.no_clobber,
                })
            }
            Request::Show(_) => None,
            Request::Twin(request) => Some(request.output),
            Request::Encode(request) => Some(request.output),
            Request::Certify(request) => Some(request.output),
            Request::Convert(request) => Some(request.output),
            Request::Decode(request) => Some(request.output),
            Request::Follow(request) => Some(request.output),
            Request::Drop(request) => Some(request.output),
            Request::Salvage(request) => Some(request.output),
            Request::Join(request) => Some(request.output),
        }
    }

    /// Whose packets it asks for.
    pub fn identity(&self) -> Option<Identity> {
        match self {
            Request::Check(request) => Some(request.identity),
            Request::Twin(request) => Some(request.identity),
            Request::Decode(request) => Some(request.identity),
            Request::Follow(request) => Some(request.identity),
            Request::Convert(request) => Some(request.identity),
            _ => None,
        }
    }
}
