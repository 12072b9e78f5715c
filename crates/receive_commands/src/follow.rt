//! The command `follow`.
ghost use Rattle.std.specs.Prelude.{◌≡◌, ◌≢◌, ◌≤◌, ◌++◌, ◌⊎◌, ℕ, List, Option, Ok, Err, true};
ghost use Rattle.std.specs.Prelude.{false, length, IfOk, IfErr, OnOk, OnErr};
ghost use Rattle.std.specs.Io.KnownBytes.{Consumes, IsAtEnd};
ghost use Rattle.session.specs.Frames.{frame, most_bytes};
ghost use Rattle.receiver.specs.Begun.{Begins};
ghost use Rattle.receiver.specs.Filed.{Stands, has_output};
ghost use Rattle.receiver.specs.Receiving.{LeaveNoneShort};
ghost use Rattle.receiver.specs.Stands.{IsSoundIn};
ghost use Rattle.request.specs.declared.requests.Request.TheVariants.{Follow};
ghost use Rattle.host.specs.World.{World as WorldValue, GivesFile, KeepsFiles, IsFree, IsSilent};
ghost use Rattle.request.specs.declared.requests.FollowRequest.{FollowRequest as RequestValue};
ghost use Rattle.commands.specs.Doing.{IsUndone, IsUncommitted, IsUncreated, IsUnwritten};
ghost use Rattle.commands.specs.Following.{complete_line, refusal_line};
ghost use Rattle.commands.specs.Lines.{refusal_words};
ghost use Rattle.receive_commands.specs.Listening.{AreSaid, IsFollowed, IsShort, IsReceived};
ghost use Rattle.receive_commands.specs.Listening.{IsLacking};
ghost use Rattle.receive_commands.specs.Listening.{IsUnheard, IsHearing, IsEnding, IsPrepared};
ghost use Rattle.receive_commands.specs.Listening.{IsUnkeptOf, IsWritten};
ghost use Rattle.receive_commands.specs.Listening.{stopped_by};
ghost use Rattle.commands.specs.Outcomes.{IsDone};
ghost use Rattle.commands.specs.declared.fault.Fault.TheVariants.{File};
ghost use Rattle.commands.specs.declared.output.Unwritten.TheVariants.{Writing};

use crate::decode::told_of;
use block_recovery::DecodeFault;
use commands::{
    Ended, Fault, Stop, Text, Unwritten, Why, commit, next_datagram, open, print_count,
    put_packet_fault,
};
use decoder::Answer;
use host::Host;
use receiver::{FeedFault, FileReceiver, Progress};
use request::{FollowRequest, Output};
use session::{Failed, Read};
use std::alloc::{AllocError, Global};
use streams::WriteAt;

/// A session as far as it was followed.
struct Followed<W: WriteAt> {
    receiver: FileReceiver<W>,
    /// How many datagrams were read.
    count: usize,
    /// Whether the lines of those that were refused were printed.
    said: bool,
    /// How many of these contradict those that were taken.
    contradictions: u64,
}

/// How a session ends.
enum Ending {
    /// The datagrams that were read gave the object.
    Full,
    /// All were read, and the answer says what they lack.
    Lacks(Answer),
}

/// Takes the session's datagrams one by one, and prints a line for each that is refused. The output
/// is asked for at the first carrier whose FTI has its symbol, and has the symbols from then on,
/// where it has offsets. Once the datagrams give the object no more are read, and it is kept; else
/// the output is given up, and what lacks is printed at the end. Answers the status. Each line is
/// passed on before the next datagram is read. Where printing fails, no more is printed, and the
/// object is received and kept all the same.
pub fn follow<'a, H: Host>(
    alloc: Global,
    host: &mut H,
    request: &FollowRequest<'a>,
) -> Result<Ended, Stop<'a>>
    ensures ok { IfOk result (λ ended.
        IsDone (H.world host.old) (H.world host.new) (Follow request.now) ended.status) }
    ensures fault { IfErr result
        (IsUndone (H.world host.old) (H.world host.new) (Follow request.now)) }
{
    let mut frames = open(host, request.session)?;
    let (followed, ending) = listen(alloc, host, request, &mut frames);
    match ending {
        Ok(Ending::Full) => deliver(host, request, followed),
        Ok(Ending::Lacks(answer)) => tell_lack(alloc, host, request, followed, &answer),
        Err(unwritten) => Err(give_up(host, request, followed, unwritten)),
    }
}

// Why following stops for a fault: it is told only where what comes before it was.
fn stop_by<'a>(fault: Fault<'a>, said: bool) -> Stop<'a>
    ensures { result ≡ stopped_by fault.entry said }
{
    if said {
        Stop::ByFault(fault)
    } else {
        Stop::Unprinted
    }
}

// Follows a session that was opened until its datagrams give the object, or to its end.
fn listen<'a, R: Read, H: Host>(
    alloc: Global,
    host: &mut H,
    request: &FollowRequest<'a>,
    frames: &mut R,
) -> (Followed<H::Output>, Result<Ending, Unwritten<'a>>)
    requires { GivesFile (H.world host.old) request.now.session.now (R.remaining frames.old)
        (R.sound frames.old) }
    ensures { IsEnding request.now (H.world host.old) (H.world host.new) result.0 result.1 }
{
    let mut followed = Followed {
        receiver: FileReceiver::new(request.identity),
        count: 0,
        said: true,
        contradictions: 0,
    };
    loop {
        let datagram = match next_datagram(alloc, frames) {
            Ok(Some(datagram)) => datagram,
            Ok(None) => {
                let ending = end(&followed);
                return (followed, Ok(ending));
            }
            Err(fault) => return (followed, Err(Unwritten::Fault(fault))),
        };
        let (next, heard) = hear(alloc, host, request, followed, datagram.as_slice());
        match heard {
            Ok(Progress::More) => followed = next,
            Ok(Progress::Complete) => return (next, Ok(Ending::Full)),
            Err(unwritten) => return (next, Err(unwritten)),
        }
    }
}

// How a session ends that was read to its end.
fn end<W: WriteAt>(followed: &Followed<W>) -> Ending
    ensures { (r : RequestValue) (old new : WorldValue) (left : Option (List ℕ))
        → IsFollowed r old new followed.now (IsShort r left followed.now) → IsAtEnd left
        → IsEnding r old new followed.now (Ok result) }
{
    match followed.receiver.lack() {
        Some(answer) => Ending::Lacks(answer),
        None => Ending::Full,
    }
}

// Hears one datagram more, and prints why it is refused, where it is.
fn hear<'a, H: Host>(
    alloc: Global,
    host: &mut H,
    request: &FollowRequest<'a>,
    followed: Followed<H::Output>,
    datagram: &[u8],
) -> (Followed<H::Output>, Result<Progress, Unwritten<'a>>)
    requires sound { IsSoundIn followed.receiver.receiving.store }
    requires said { followed.said ≡ false → (H.world host.old).failed ≡ true }
    ensures { (old : WorldValue) (before after : Option (List ℕ))
        → IsFollowed request.now old (H.world host.old) followed
        (IsShort request.now before followed)
        → Consumes before after (frame datagram.now) → length datagram.now ≤ most_bytes
        → IsHearing request.now old (H.world host.new) after result.0 result.1 }
{
    let (mut followed, prepared) = prepare(host, request, followed, datagram);
    if let Err(AllocError) = prepared {
        return (followed, Err(Unwritten::Fault(Fault::Memory)));
    }
    let place = followed.count;
    let Some(read) = place.checked_add(1) else {
        return (followed, Err(Unwritten::Fault(Fault::Memory)));
    };
    followed.count = read;
    match followed.receiver.feed(alloc, datagram) {
        Ok(progress) => (followed, Ok(progress)),
        Err(FeedFault::Failed) => (followed, Err(Unwritten::Writing)),
        Err(refusal) => match tell_refusal(alloc, host, place, refusal, followed.said) {
            Ok(said) => {
                followed.said = said;
                followed.contradictions = more_contradictions(followed.contradictions, refusal);
                (followed, Ok(Progress::More))
            }
            Err(AllocError) => (followed, Err(Unwritten::Fault(Fault::Memory))),
        },
    }
}

// How many datagrams contradict those that were taken, once one more was refused for this.
fn more_contradictions(contradictions: u64, refusal: FeedFault) -> u64 {
    match refusal {
        FeedFault::Fault(DecodeFault::Clash(_) | DecodeFault::NotCode(_)) => {
            contradictions.saturating_add(1)
        }
        _ => contradictions,
    }
}

// Asks for the output where this datagram is the first carrier whose FTI has its symbol.
fn prepare<'a, H: Host>(
    host: &mut H,
    request: &FollowRequest<'a>,
    mut followed: Followed<H::Output>,
    datagram: &[u8],
) -> (Followed<H::Output>, Result<(), AllocError>)
    requires { IsSoundIn followed.receiver.receiving.store }
    ensures sound { IsSoundIn result.0.receiver.receiving.store }
    ensures said { result.0.said ≡ followed.said }
    ensures silent { IsSilent (H.world host.old) (H.world host.new) }
    ensures ready { OnOk result.1 (has_output result.0.receiver ≡ false
        → ¬ Begins result.0.receiver.receiving.identity datagram.now) }
    ensures prepared { (old : WorldValue) (before after : Option (List ℕ))
        → IsFollowed request.now old (H.world host.old) followed
        (IsShort request.now before followed)
        → Consumes before after (frame datagram.now) → length datagram.now ≤ most_bytes
        → IsPrepared request.now old (H.world host.new) before result.0 result.1 }
{
    if !followed.receiver.wants_output(datagram) {
        return (followed, Ok(()));
    }
    let Output { name, no_clobber } = request.output;
    let output = match host.create_file(name, no_clobber) {
        Ok(output) => output,
        Err(fault) => return (followed, Err(fault)),
    };
    followed.receiver = followed.receiver.with_output(output);
    (followed, Ok(()))
}

// Prints that the datagram at a place was refused, and why, unless printing has failed. Answers
// whether all was printed. A refusal for want of memory is no line.
fn tell_refusal<H: Host>(
    alloc: Global,
    host: &mut H,
    place: usize,
    refusal: FeedFault,
    said: bool,
) -> Result<bool, AllocError>
    requires said { said ≡ false → (H.world host.old).failed ≡ true }
    requires refused { refusal ≢ FeedFault.Failed }
    ensures said { IfOk result
        (AreSaid (H.world host.old) (H.world host.new) (refusal_line place refusal)) }
    ensures before { IfOk result (λ told. told ≡ true → said ≡ true) }
    ensures some { OnOk result (refusal ≢ FeedFault.NoMemory) }
    ensures none { OnErr result (H.world host.new ≡ H.world host.old) }
    ensures files { KeepsFiles (H.world host.old) (H.world host.new) }
{
    if refusal == FeedFault::NoMemory {
        return Err(AllocError);
    }
    if !said {
        return Ok(false);
    }
    let line = refused_line(alloc, place, refusal)?;
    Ok(line.print(host).is_ok() && host.pass_on().is_ok())
}

fn refused_line(alloc: Global, place: usize, fault: FeedFault) -> Result<Text, AllocError>
    requires { fault ≢ FeedFault.Failed }
    ensures { IfOk result (λ line. line ≡ refusal_line place fault) }
{
    let mut line = Text::new(alloc);
    line.named("refused", place)?;
    line.text(" ")?;
    put_refusal(&mut line, fault)?;
    line.end_line()?;
    Ok(line)
}

// Puts why a datagram was refused last.
fn put_refusal(line: &mut Text, fault: FeedFault) -> Result<(), AllocError>
    requires { fault ≢ FeedFault.Failed }
    ensures { OnOk result (line.new ≡ line.old ++ refusal_words fault) }
{
    match fault {
        FeedFault::Fault(DecodeFault::Packet(_, fault)) => {
            line.text("R1 Packet ")?;
            put_packet_fault(line, fault)
        }
        FeedFault::Fault(DecodeFault::OtherFti(_)) => line.text("R3 OtherFti"),
        FeedFault::Fault(DecodeFault::SymbolLength(_)) => line.text("R7 SymbolLength"),
        FeedFault::Fault(DecodeFault::Range(_)) => line.text("R4 Range"),
        FeedFault::Fault(DecodeFault::Clash(_)) => line.text("R5 Clash"),
        FeedFault::Fault(DecodeFault::NotCode(block)) => line.named("R6 NotCode block", block),
        FeedFault::Full => line.text("G1 Full"),
        FeedFault::Early => line.text("G2 Early"),
        FeedFault::NoMemory => line.text("memory"),
        FeedFault::Failed => unreachable!(),
    }
}

// Tells that the object is there once so many datagrams were read, keeps it, and answers the
// status. Where printing has failed, before or now, the object is kept all the same.
fn deliver<'a, H: Host>(
    host: &mut H,
    request: &FollowRequest<'a>,
    followed: Followed<H::Output>,
) -> Result<Ended, Stop<'a>>
    requires output { has_output followed.receiver ≡ true }
    requires said { followed.said ≡ false → (H.world host.old).failed ≡ true }
    ensures ok { (old : WorldValue) → IsReceived request.now old (H.world host.old) followed
        → IfOk result (λ ended. IsDone old (H.world host.new) (Follow request.now) ended.status) }
    ensures fault { (old : WorldValue) → IsReceived request.now old (H.world host.old) followed
        → IfErr result (IsUndone old (H.world host.new) (Follow request.now)) }
{
    let Followed {
        receiver,
        count,
        said,
        contradictions,
    } = followed;
    let said = tell_complete(host, count, said);
    let length = match keep_object(host, request, receiver) {
        Ok(length) => length,
        Err(fault) => return Err(stop_by(fault, said)),
    };
    if !said {
        return Err(Stop::Unprinted);
    }
    print_count(host, "object", length, " bytes")?;
    Ok(Ended {
        status: 0,
        why: Why::Contradicted(contradictions),
    })
}

// Prints after how many datagrams the object is there, unless printing has failed. Answers whether
// all was printed.
fn tell_complete<H: Host>(host: &mut H, count: usize, said: bool) -> bool
    requires { said ≡ false → (H.world host.old).failed ≡ true }
    ensures said { AreSaid (H.world host.old) (H.world host.new) (complete_line count) result }
    ensures before { result ≡ true → said ≡ true }
    ensures files { KeepsFiles (H.world host.old) (H.world host.new) }
{
    said && print_count(host, "complete after", count, " datagrams").is_ok()
        && host.pass_on().is_ok()
}

// Keeps the object that the datagrams gave, and answers its length in bytes.
fn keep_object<'a, H: Host>(
    host: &mut H,
    request: &FollowRequest<'a>,
    receiver: FileReceiver<H::Output>,
) -> Result<u64, Fault<'a>>
    requires { has_output receiver ≡ true }
    ensures kept { (taken : List (List ℕ)) → Stands receiver taken
        → LeaveNoneShort receiver.receiving.identity taken
        → IfOk result (IsWritten request.now receiver.receiving.identity taken
        (H.world host.old) (H.world host.new)) }
    ensures free { OnOk result (IsFree (H.world host.old).files
        request.now.output.name.now request.now.output.no_clobber) }
    ensures given { (taken : List (List ℕ)) → Stands receiver taken
        → LeaveNoneShort receiver.receiving.identity taken
        → IfErr result (IsUnkeptOf receiver.receiving.identity taken) }
    ensures fault { IfErr result (λ told. IsUncreated (H.world host.old) request.now.output told
        ⊎ IsUnwritten (H.world host.old) request.now.output
        (File request.now.output.name) told) }
    ensures files { OnErr result ((H.world host.new).files ≡ (H.world host.old).files) }
    ensures silent { IsSilent (H.world host.old) (H.world host.new) }
    ensures created { (H.world host.new).created ≡ (H.world host.old).created }
{
    let (output, finished) = receiver.finish();
    let written = match finished {
        Ok(length) => Ok(length),
        Err(Failed) => Err(Unwritten::Writing),
    };
    let failure = Fault::File(request.output.name);
    commit(host, &request.output, output, written, failure)
}

// Prints what the datagrams lack, and answers the status. The output, if there is one, is given up.
fn tell_lack<'a, H: Host>(
    alloc: Global,
    host: &mut H,
    request: &FollowRequest<'a>,
    followed: Followed<H::Output>,
    answer: &Answer,
) -> Result<Ended, Stop<'a>>
    ensures ok { (old : WorldValue)
        → IsLacking request.now old (H.world host.old) followed answer.now
        → IfOk result (λ ended. IsDone old (H.world host.new) (Follow request.now) ended.status) }
    ensures fault { (old : WorldValue)
        → IsLacking request.now old (H.world host.old) followed answer.now
        → IfErr result (IsUndone old (H.world host.new) (Follow request.now)) }
{
    let Followed {
        receiver,
        count: _,
        said,
        contradictions: _,
    } = followed;
    if let Some(output) = receiver.into_output() {
        host.give_up(request.output.name, output);
    }
    if !said {
        return Err(Stop::Unprinted);
    }
    let done = told_of(alloc, answer)?;
    done.told.print(host)?;
    Ok(Ended {
        status: done.status,
        why: done.why,
    })
}

// Gives the output up, if there is one, and answers why following stops.
fn give_up<'a, H: Host>(
    host: &mut H,
    request: &FollowRequest<'a>,
    followed: Followed<H::Output>,
    unwritten: Unwritten<'a>,
) -> Stop<'a>
    requires { unwritten ≡ Writing → has_output followed.receiver ≡ true }
    ensures { (old : WorldValue)
        → IsUnheard request.now old (H.world host.old) followed unwritten.entry
        → IsUndone old (H.world host.new) (Follow request.now) result }
{
    let Followed {
        receiver,
        count: _,
        said,
        contradictions: _,
    } = followed;
    stop_by(drop_output(host, request, receiver, unwritten), said)
}

// Gives the output up, if there is one, and answers the fault that is told.
fn drop_output<'a, H: Host>(
    host: &mut H,
    request: &FollowRequest<'a>,
    receiver: FileReceiver<H::Output>,
    unwritten: Unwritten<'a>,
) -> Fault<'a>
    requires { unwritten ≡ Writing → has_output receiver ≡ true }
    ensures fault { IsUncommitted (H.world host.old) request.now.output (Err unwritten.entry)
        (File request.now.output.name) result }
    ensures files { KeepsFiles (H.world host.old) (H.world host.new) }
    ensures silent { IsSilent (H.world host.old) (H.world host.new) }
{
    let Some(output) = receiver.into_output() else {
        return match unwritten {
            Unwritten::Fault(fault) => fault,
            Unwritten::Writing => unreachable!(),
        };
    };
    let failure = Fault::File(request.output.name);
    match commit(host, &request.output, output, Err(unwritten), failure) {
        Ok(_) => unreachable!(),
        Err(fault) => fault,
    }
}
