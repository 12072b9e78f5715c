//! What a check's yes and decoding give together.
ghost use Rattle.std.specs.Prelude.{◌≡◌, ℕ, List, None, length, IfOk, IfErr, OnOk};
ghost use Rattle.partition.specs.Fti.{Fti};
ghost use Rattle.lists.specs.Selection.{chosen, first_outside};
ghost use Rattle.session.specs.Frames.{IsPlaceFault};
ghost use Rattle.alc.specs.Reading.{Reading};
ghost use Rattle.reception.specs.Reception.{ReadAll};
ghost use Rattle.reception.specs.Answer.{Answer as AnswerValue, IsAnswer};
ghost use Rattle.reception.specs.declared.scope.Identity.{Identity as IdentityValue};
ghost use Rattle.reception.specs.Headline.{DecodesWhereEnough, TwinWhereShort, TellsElse};
ghost use Rattle.decoder.specs.Answers.{answer_value};
ghost use Rattle.decoder.specs.Promised.{IsPromised};

use crate::answer::Answer;
use crate::decoding::decode;
use reception::Identity;
use session::{FrameFault, Session};
use std::alloc::Global;

/// No list of datagrams has two answers: whoever meets the definition of an answer gives what
/// `decode` gives.
pub fn one_answer()
    ensures { (who : IdentityValue) (datagrams : List (List ℕ)) (a b : AnswerValue)
        → IsAnswer who datagrams a → IsAnswer who datagrams b → a ≡ b }
{}

/// What `decode` answers to a selection of a session's datagrams, in any order and with repeats.
pub fn decode_selection(
    alloc: Global,
    session: &Session,
    places: &[usize],
    identity: Identity,
) -> Result<Answer, FrameFault>
    ensures answer { IfOk result (λ a. IsAnswer identity
        (chosen session.now places.now) (answer_value a)) }
    // Where `check` said yes to the session, this object and a certificate with this FTI.
    ensures promised { IfOk result (λ a. (f : Fti) (object : List ℕ) (readings : List Reading)
        → DecodesWhereEnough identity f session.now object
        → TwinWhereShort identity f session.now object
        → TellsElse identity f session.now
        → ReadAll (chosen session.now places.now) readings
        → IsPromised identity f readings object (answer_value a)) }
    ensures inside { OnOk result (first_outside (length session.now) places.now ≡ None) }
    ensures fault { IfErr result
        (λ e. IsPlaceFault e (first_outside (length session.now) places.now)) }
{
    let chosen = session.keep(alloc, places)?;
    let Ok(datagrams) = chosen.views(alloc) else {
        return Err(FrameFault::NoMemory);
    };
    match decode(alloc, &datagrams, identity) {
        Ok(answer) => Ok(answer),
        Err(_) => Err(FrameFault::NoMemory),
    }
}
