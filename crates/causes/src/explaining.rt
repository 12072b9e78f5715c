//! The sentence on an end.
ghost use Rattle.std.specs.Prelude.{IfOk, is_some};
ghost use Rattle.causes.specs.Sentences.{IsSaid};

use crate::case::{Case, Sentence};
use commands::{Stop, Why};
use inspection::Failure;
use request::Request;
use std::alloc::{AllocError, Global};
use std::fs::File;
use std::rt::Files;

/// What the end of a command means, and what to do. `None` where its lines say it all. `failure` is
/// the call of the system that has failed last, if one has.
pub fn explain<'a, R: Files<File = File>>(
    rt: &'a R,
    alloc: Global,
    request: &'a Request<'a>,
    why: Result<Why, Stop<'_>>,
    failure: Option<&'a Failure>,
) -> Result<Option<String>, AllocError>
    ensures said { IfOk result (λ said. IsSaid request.now why.entry (is_some said)) }
{
    let case = Case::new(rt, alloc, request, failure);
    match why {
        Ok(Why::Plain) => Ok(None),
        Ok(
            Why::Yes {
                repeats,
                margin,
                burst,
            },
        ) => case.yes(repeats, margin, burst),
        Ok(Why::Unprotected) => case.unprotected(),
        Ok(Why::No(reason)) => case.no(reason),
        Ok(Why::Strays) => case.strays(),
        Ok(Why::Cut(_)) => case.broken(),
        Ok(Why::Empty) => case.empty(),
        Ok(Why::Missing { block, have, need }) => case.missing(block, have, need),
        Ok(Why::NoObject(fault)) => case.no_object(fault),
        Ok(Why::Contradicted(contradictions)) => case.doubt(contradictions),
        Err(Stop::ByFault(fault)) => case.fault(fault),
        Err(Stop::Unprinted) => case.failed(),
    }
}
