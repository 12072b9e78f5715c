//! The picture of a yes.
ghost use Rattle.std.specs.Prelude.{IfOk, string_bytes};
ghost use Rattle.commands.specs.Commands.{IsPictureOf};
ghost use Rattle.check_commands.specs.Drawing.{HasDrawn, IsSurveyed};

use cert::{Report, Survey, Verdict};
use picture::{Sheet, draw};
use request::CheckRequest;
use std::alloc::{AllocError, Global};

/// A picture, and the name that it is to have.
#[derive(Drop)]
pub(crate) struct Drawn<'a> {
    pub(crate) name: &'a str,
    pub(crate) text: String,
}

/// The picture of a verdict with its survey, where one is asked for and the answer is yes. It tells
/// the object's length in bytes.
pub(crate) fn picture_of<'a>(
    alloc: Global,
    request: &CheckRequest<'a>,
    object_length: u64,
    verdict: &Verdict,
    survey: &Option<Survey>,
) -> Result<Option<Drawn<'a>>, AllocError>
    requires { IsSurveyed request.now.picture verdict.now survey.now }
    ensures { IfOk result (HasDrawn request.now.picture verdict.now) }
{
    let Some(name) = request.picture else {
        return Ok(None);
    };
    match (verdict, survey) {
        (Verdict::Yes(report), Some(survey)) => {
            let text = sheet_text(alloc, request, object_length, report, survey)?;
            Ok(Some(Drawn { name, text }))
        }
        (Verdict::Yes(_), None) => unreachable!(),
        (Verdict::No(_), _) => Ok(None),
    }
}

// The sheet of a report and a survey.
fn sheet_text(
    alloc: Global,
    request: &CheckRequest<'_>,
    object_length: u64,
    report: &Report,
    survey: &Survey,
) -> Result<String, AllocError>
    ensures { IfOk result (λ text. IsPictureOf report.now (string_bytes text)) }
{
    let sheet = Sheet {
        session: request.session,
        object: request.object,
        tsi: request.identity.tsi,
        toi: request.identity.toi,
        object_length,
        datagrams: survey.datagrams,
        blocks: report.blocks.as_slice(),
        carriers: survey.carriers.as_slice(),
        margin: report.margin,
        kill: report.kill.as_slice(),
        kill_block: report.kill_block,
        burst: report.burst,
        runs: survey.runs.as_slice(),
    };
    draw(alloc, &sheet)
}
