//! Doing what was asked for.
ghost use Rattle.std.specs.Prelude.{◌≡◌, ◌⊎◌, ◌≤◌, true, codes, IfOk, IfErr};
ghost use Rattle.std.specs.Io.KnownBytes.{Appends};
ghost use Rattle.host.specs.World.{KeepsFiles, World};
ghost use Rattle.request.specs.declared.requests.Request.{Request as RequestValue};
ghost use Rattle.commands.specs.Lines.{TellsFault};
ghost use Rattle.commands.specs.Doing.{IsUndone};
ghost use Rattle.commands.specs.Outcomes.{IsRun, IsDone};

use check_commands::check::check;
use check_commands::twin::twin;
use commands::{Ended, Fault, Stop, Why, fault_line, finish};
use host::Host;
use receive_commands::decode::decode;
use receive_commands::follow::follow;
use receive_commands::show::show;
use request::Request;
use send_commands::certify::certify;
use send_commands::convert::convert;
use send_commands::drop::drop_places;
use send_commands::encode::encode;
use send_commands::join::join;
use send_commands::salvage::salvage;
use std::alloc::Global;

/// What is printed where there is no memory.
pub(crate) const MEMORY_LINE: &[u8] = b"fault memory\n";

/// The status of a request that was run, and why it has that. Nothing is promised of the why.
#[derive(Clone, Copy)]
pub struct Settled<'a> {
    pub status: u8,
    pub why: Result<Why, Stop<'a>>,
}

/// Does the command, and prints its lines. The status is 0 for done or yes, 1 for no or a fault, 3
/// where decoding has too little. If lines can't be printed it is 1.
pub fn run<'a, H: Host>(alloc: Global, host: &mut H, request: &Request<'a>) -> Settled<'a>
    ensures run { IsRun (H.world host.old) (H.world host.new) request.now result.status }
    ensures status { result.status ≤ 3 }
{
    let done = match request {
        Request::Show(request) => {
            let outcome = show(alloc, host, request);
            return settle(alloc, host, outcome);
        }
        Request::Follow(request) => {
            let outcome = follow(alloc, host, request);
            return settle(alloc, host, outcome);
        }
        Request::Check(request) => check(alloc, host, request),
        Request::Twin(request) => twin(alloc, host, request),
        Request::Encode(request) => encode(alloc, host, request),
        Request::Certify(request) => certify(alloc, host, request),
        Request::Convert(request) => convert(alloc, host, request),
        Request::Decode(request) => decode(alloc, host, request),
        Request::Drop(request) => drop_places(alloc, host, request),
        Request::Salvage(request) => salvage(alloc, host, request),
        Request::Join(request) => join(alloc, host, request),
    };
    let outcome = finish(host, done);
    settle(alloc, host, outcome)
}

// Tells what stopped a command, if something has.
fn settle<'a, H: Host>(alloc: Global, host: &mut H, outcome: Result<Ended, Stop<'a>>) -> Settled<'a>
    ensures run { (old : World) (r : RequestValue)
        → IfOk outcome.entry (λ ended. IsDone old (H.world host.old) r ended.status)
        → IfErr outcome.entry (IsUndone old (H.world host.old) r)
        → IsRun old (H.world host.new) r result.status }
    ensures status { result.status ≤ 3 }
{
    match outcome {
        Ok(Ended { status, why }) => Settled {
            status,
            why: Ok(why),
        },
        Err(Stop::ByFault(fault)) => {
            tell(alloc, host, fault);
            Settled {
                status: 1,
                why: Err(Stop::ByFault(fault)),
            }
        }
        Err(Stop::Unprinted) => Settled {
            status: 1,
            why: Err(Stop::Unprinted),
        },
    }
}

// Prints a fault, or, if there is no memory for its line, that.
fn tell<H: Host>(alloc: Global, host: &mut H, fault: Fault<'_>)
    ensures { TellsFault fault.entry (H.world host.old) (H.world host.new) }
{
    match fault_line(alloc, fault) {
        Ok(line) => {
            let _ = line.print(host);
        }
        Err(_) => tell_memory(host),
    }
}

// Takes no memory itself.
pub(crate) fn tell_memory<H: Host>(host: &mut H)
    ensures told { ((H.world host.new).failed ≡ true) ⊎ Appends (H.world host.old).printed
        (H.world host.new).printed (codes "fault memory\n") }
    ensures files { KeepsFiles (H.world host.old) (H.world host.new) }
{
    let _ = host.print(MEMORY_LINE);
}
