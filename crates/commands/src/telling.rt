//! How it is told what a command has done.
ghost use Rattle.std.specs.Prelude.{◌≡◌, true, IfOk, IfErr, OnOk, OnErr};
ghost use Rattle.std.specs.Io.KnownBytes.{Appends};
ghost use Rattle.request.specs.declared.requests.Request.{Request as RequestValue};
ghost use Rattle.host.specs.World.{World, KeepsFiles};
ghost use Rattle.commands.specs.Doing.{text_of, HasMade, HasStopped, IsUndone};
ghost use Rattle.commands.specs.Outcomes.{IsDone};

use crate::done::{Done, Ended, Told};
use crate::fault::{Fault, Stop};
use crate::print::print_count;
use host::Host;
use session::Failed;

impl Told {
    /// Prints it. Takes no memory.
    pub fn print<H: Host>(&self, host: &mut H) -> Result<(), Failed>
        ensures printed { OnOk result (Appends (H.world host.old).printed
            (H.world host.new).printed (text_of self.now)) }
        ensures fails { OnErr result ((H.world host.new).failed ≡ true) }
        ensures files { KeepsFiles (H.world host.old) (H.world host.new) }
    {
        match self {
            Told::Lines(text) => text.print(host),
            Told::Count(name, count, of) => print_count(host, *name, *count, *of),
        }
    }
}

/// Prints what was done, and answers how the command ended.
pub fn finish<'a, H: Host>(host: &mut H, done: Result<Done, Fault<'a>>) -> Result<Ended, Stop<'a>>
    ensures ok { (old : World) (r : RequestValue)
        → IfOk done.entry (HasMade old (H.world host.old) r)
        → IfOk result (λ ended. IsDone old (H.world host.new) r ended.status) }
    ensures fault { (old : World) (r : RequestValue)
        → IfOk done.entry (HasMade old (H.world host.old) r)
        → IfErr done.entry (HasStopped old (H.world host.old) r)
        → IfErr result (IsUndone old (H.world host.new) r) }
{
    let done = done?;
    done.told.print(host)?;
    Ok(Ended {
        status: done.status,
        why: done.why,
    })
}
