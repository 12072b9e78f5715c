//! The command `decode`.
ghost use Rattle.std.specs.Prelude.{◌≡◌, ◌≤◌, ◌++◌, ℕ, Bool, List, Option, Some, true};
ghost use Rattle.std.specs.Prelude.{IfOk, IfErr, IfSome, IsNone, OnOk};
ghost use Rattle.host.specs.World.{World, GivesFile};
ghost use Rattle.commands.specs.Wholes.{content_of, reliable_of};
ghost use Rattle.file_decoder.specs.IndexedIn.{IsFileFault};
ghost use Rattle.file_decoder.specs.PlacesOf.{ArePlacedIn, ArePlacedOf};
ghost use Rattle.commands.specs.Inputs.{ASession, IsUnread};
ghost use Rattle.request.specs.declared.requests.Request.TheVariants.{Decode};
ghost use Rattle.decoder.specs.Answers.{answer_value};
ghost use Rattle.block_recovery.specs.Faults.{fault_value};
ghost use Rattle.decoder.specs.Objects.{IsNoObject, IsWrittenOf};
ghost use Rattle.reception.specs.Answer.{IsAnswer};
ghost use Rattle.commands.specs.Commands.{answer_status};
ghost use Rattle.commands.specs.Doing.{HasMade, HasStopped};
ghost use Rattle.receive_commands.specs.Decoding.{IsToldOf, IsWriteBroken};
ghost use Rattle.commands.specs.Lines.{line_of, answer_text};

use block_recovery::DecodeFault;
use commands::{
    Done, Fault, Text, Told, Unwritten, Whole, Why, commit, if_unchanged, open_session,
    put_packet_fault, see_whole,
};
use decoder::{Answer, WriteFault};
use file_decoder::{FileFault, FileSymbols, index_file};
use host::Host;
use request::DecodeRequest;
use std::alloc::{AllocError, Global};
use streams::{ReadAt, WriteAt};

/// Writes the object that the identity's packets in the session give, block by block. The output is
/// asked for if no datagram has a fault and no block is short, and given up if the symbols turn out
/// to be of no object.
pub fn decode<'a, H: Host>(
    alloc: Global,
    host: &mut H,
    request: &DecodeRequest<'a>,
) -> Result<Done, Fault<'a>>
    ensures ok { IfOk result
        (HasMade (H.world host.old) (H.world host.new) (Decode request.now)) }
    ensures fault { IfErr result
        (HasStopped (H.world host.old) (H.world host.new) (Decode request.now)) }
{
    let session = open_session(alloc, host, request.session)?;
    decode_whole(alloc, host, request, &session)
}

// Decodes a session that is read at offsets. If the symbols turn out to be of no object, the output
// is given up.
fn decode_whole<'a, H: Host>(
    alloc: Global,
    host: &mut H,
    request: &DecodeRequest<'a>,
    input: &Whole<H::Input>,
) -> Result<Done, Fault<'a>>
    requires { GivesFile (H.world host.old) request.now.session.now
        (content_of H.Input.content input.now) (reliable_of H.Input.reliable input.now) }
    ensures ok { IfOk result
        (HasMade (H.world host.old) (H.world host.new) (Decode request.now)) }
    ensures fault { IfErr result
        (HasStopped (H.world host.old) (H.world host.new) (Decode request.now)) }
{
    let session = request.session;
    let symbols = match index_file(alloc, input, request.identity) {
        Ok(Ok(symbols)) => symbols,
        Ok(Err(answer)) => {
            see_whole(host, session, input)?;
            return Ok(told_of(alloc, &answer)?);
        }
        Err(fault) => return Err(file_fault(session, fault)),
    };
    let mut file = host.create_file(request.output.name, request.output.no_clobber)?;
    let written = write_object(alloc, session, input, &symbols, &mut file);
    let failure = Fault::File(request.output.name);
    match if_unchanged(host, session, input, written) {
        Ok(None) => {
            let length = Ok(symbols.transfer_length());
            let length = commit(host, &request.output, file, length, failure)?;
            Ok(Done::counted("object", length, " bytes"))
        }
        Ok(Some(answer)) => {
            host.give_up(request.output.name, file);
            Ok(told_of(alloc, &answer)?)
        }
        Err(unwritten) => match commit(host, &request.output, file, Err(unwritten), failure) {
            Ok(_) => unreachable!(),
            Err(fault) => Err(fault),
        },
    }
}

// A fault of a session file, as it is told.
fn file_fault<'a>(session: &'a str, fault: FileFault) -> Fault<'a>
    ensures { (world : World) (content : Option (List ℕ)) (reliable : Bool)
        → GivesFile world session.now content reliable → IsFileFault content reliable fault
        → IsUnread world (ASession session.now) result }
{
    match fault {
        FileFault::Frame(fault) => Fault::Frame(fault),
        FileFault::Changed => Fault::File(session),
        FileFault::NoMemory => Fault::Memory,
    }
}

// Writes the object, as long as the symbols are of one; else answers what the session's datagrams
// give. What is written straight stays written, so all symbols are looked at before.
fn write_object<'a, F: ReadAt, W: WriteAt>(
    alloc: Global,
    session: &'a str,
    input: &F,
    symbols: &FileSymbols,
    writer: &mut W,
) -> Result<Option<Answer>, Unwritten<'a>>
    requires { ArePlacedIn (F.content input.now) symbols.now }
    ensures written { (ds : List (List ℕ)) (x : List ℕ) → F.content input.now ≡ Some x
        → ArePlacedOf symbols.now.indexed.identity ds x symbols.now
        → IfOk result (λ o. IsNone o → IsWrittenOf
        symbols.now.indexed.identity ds (W.contents writer.old) (W.contents writer.new)
        symbols.now.indexed.fti.transfer_length) }
    ensures answer { (ds : List (List ℕ)) (x : List ℕ) → F.content input.now ≡ Some x
        → ArePlacedOf symbols.now.indexed.identity ds x symbols.now
        → IfOk result (λ o. IfSome o (λ a.
        IsAnswer symbols.now.indexed.identity ds (answer_value a))) }
    ensures none { IfOk result (λ o. IfSome o IsNoObject) }
    ensures fault { (world : World) → GivesFile world session.now (F.content input.now)
        (F.reliable input.now) → IfErr result (IsWriteBroken world session.now) }
    ensures writing { IfErr result (λ e. e ≡ Unwritten.Writing
        → W.failed writer.new ≡ true) }
{
    if !writer.is_seekable() {
        match symbols.refutation(alloc, input) {
            Ok(None) => {}
            Ok(Some(answer)) => return Ok(Some(answer)),
            Err(fault) => return Err(Unwritten::Fault(file_fault(session, fault))),
        }
    }
    match symbols.write_checked(alloc, input, writer) {
        Ok(refuted) => Ok(refuted),
        Err(WriteFault::Io) => Err(Unwritten::Writing),
        Err(WriteFault::Unread(unread)) => {
            Err(Unwritten::Fault(file_fault(session, FileFault::from(unread))))
        }
    }
}

// What is told of an answer without an object.
pub(crate) fn told_of(alloc: Global, answer: &Answer) -> Result<Done, AllocError>
    ensures { IfOk result (IsToldOf (answer_value answer.now)) }
{
    Ok(Done {
        told: Told::Lines(answer_line(alloc, answer)?),
        status: status_of(answer),
        why: why_of(answer),
    })
}

fn why_of(answer: &Answer) -> Why {
    match answer {
        Answer::Object(_) => Why::Plain,
        Answer::Fault(fault) => Why::NoObject(*fault),
        Answer::Empty => Why::Empty,
        Answer::Missing { block, have, need } => Why::Missing {
            block: *block,
            have: *have,
            need: *need,
        },
    }
}

fn status_of(answer: &Answer) -> u8
    ensures value { result ≡ answer_status (answer_value answer.now) }
    ensures small { result ≤ 3 }
{
    match answer {
        Answer::Object(_) => 0,
        Answer::Fault(_) => 1,
        Answer::Empty | Answer::Missing { .. } => 3,
    }
}

fn answer_line(alloc: Global, answer: &Answer) -> Result<Text, AllocError>
    ensures { IfOk result (λ line. line ≡ line_of (answer_text (answer_value answer.now))) }
{
    let mut line = Text::new(alloc);
    put_answer(&mut line, answer)?;
    line.end_line()?;
    Ok(line)
}

// Puts an answer last.
fn put_answer(line: &mut Text, answer: &Answer) -> Result<(), AllocError>
    ensures { OnOk result (line.new ≡ line.old ++ answer_text (answer_value answer.now)) }
{
    match answer {
        Answer::Empty => line.text("empty"),
        Answer::Fault(fault) => put_fault(line, *fault),
        Answer::Missing { block, have, need } => {
            line.short_block("missing block", *block, *have, *need)
        }
        Answer::Object(object) => {
            line.named("object", object.len())?;
            line.text(" bytes")
        }
    }
}

// Puts a fault last, with its place.
fn put_fault(line: &mut Text, fault: DecodeFault) -> Result<(), AllocError>
    ensures { OnOk result (line.new ≡ line.old ++ answer_text (fault_value fault)) }
{
    match fault {
        DecodeFault::Packet(place, fault) => {
            line.named("fault R1 Packet place", place)?;
            line.text(" ")?;
            put_packet_fault(line, fault)
        }
        DecodeFault::OtherFti(place) => line.named("fault R3 OtherFti place", place),
        DecodeFault::SymbolLength(place) => line.named("fault R7 SymbolLength place", place),
        DecodeFault::Range(place) => line.named("fault R4 Range place", place),
        DecodeFault::Clash(place) => line.named("fault R5 Clash place", place),
        DecodeFault::NotCode(block) => line.named("fault R6 NotCode block", block),
    }
}
