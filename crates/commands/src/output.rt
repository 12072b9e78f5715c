//! Output files.
ghost use Rattle.std.specs.Prelude.{◌≡◌, ◌⊎◌, Ok, Err, IfOk, IfErr, IfSome, OnOk, OnErr};
ghost use Rattle.host.specs.World.{IsFree, Replaces, IsSilent, one_more};
ghost use Rattle.commands.specs.Doing.{IsUncommitted, IsUnkept, IsUnwrittenAgain};
ghost use Rattle.commands.specs.Wholes.{reliable_of};

use crate::fault::Fault;
use crate::whole::{Whole, see_whole};
use host::{FileFault, Host, KeepFault};
use request::Output;
use session::write_all;

/// Why a file wasn't written to its end.
#[derive(Drop)]
pub enum Unwritten<'a> {
    /// Writing has failed.
    Writing,
    /// What was to be written isn't there, for this fault.
    Fault(Fault<'a>),
}

/// What was written of what was opened under this name, if that is as it was then.
pub fn if_unchanged<'a, T: Drop, H: Host>(
    host: &H,
    name: &'a str,
    source: &Whole<H::Input>,
    written: Result<T, Unwritten<'a>>,
) -> Result<T, Unwritten<'a>>
    ensures ok { OnOk result (result ≡ written.entry) }
    ensures fault { IfErr result (λ e. (written.entry ≡ Err e)
        ⊎ IsUnwrittenAgain (reliable_of H.Input.reliable source.now) name.now e) }
{
    let written = written?;
    match see_whole(host, name, source) {
        Ok(()) => Ok(written),
        Err(fault) => Err(Unwritten::Fault(fault)),
    }
}

/// Keeps what was written under its output's name, or gives it up where it wasn't written to its
/// end. That the output can't be created is told where all was written. `failure` tells that
/// writing or keeping has failed, where it isn't for want of memory.
pub fn commit<'a, H: Host>(
    host: &mut H,
    output: &Output<'a>,
    file: H::Output,
    written: Result<u64, Unwritten<'a>>,
    failure: Fault<'a>,
) -> Result<u64, Fault<'a>>
    ensures count { IfOk result (λ count. written.entry ≡ Ok count) }
    ensures kept { OnOk result (IfSome (H.Output.contents file)
        (Replaces (H.world host.old).files (H.world host.new).files output.now.name.now)) }
    ensures free { OnOk result
        (IsFree (H.world host.old).files output.now.name.now output.now.no_clobber) }
    ensures fault { IfErr result
        (IsUncommitted (H.world host.old) output.now written.entry failure.entry) }
    ensures files { OnErr result ((H.world host.new).files ≡ (H.world host.old).files) }
    ensures silent { IsSilent (H.world host.old) (H.world host.new) }
    ensures created { (H.world host.new).created ≡ (H.world host.old).created }
{
    match written {
        Ok(count) => match host.keep_file(output.name, output.no_clobber, file) {
            Ok(()) => Ok(count),
            Err(KeepFault::Uncreated) => Err(Fault::Open(output.name)),
            Err(KeepFault::Io) => Err(failure),
            Err(KeepFault::NoMemory) => Err(Fault::Memory),
        },
        Err(Unwritten::Fault(fault)) => {
            host.give_up(output.name, file);
            Err(fault)
        }
        Err(Unwritten::Writing) => match host.give_up(output.name, file) {
            FileFault::Io => Err(failure),
            FileFault::NoMemory => Err(Fault::Memory),
        },
    }
}

/// Makes a file of these bytes.
pub fn write_output<'a, H: Host>(
    host: &mut H,
    output: &Output<'a>,
    bytes: &[u8],
    failure: Fault<'a>,
) -> Result<(), Fault<'a>>
    ensures made { OnOk result (Replaces (H.world host.old).files (H.world host.new).files
        output.now.name.now bytes.now) }
    ensures free { OnOk result
        (IsFree (H.world host.old).files output.now.name.now output.now.no_clobber) }
    ensures fault { IfErr result (IsUnkept (H.world host.old) (H.world host.new) output.now
        failure.entry) }
    ensures files { OnErr result ((H.world host.new).files ≡ (H.world host.old).files) }
    ensures silent { IsSilent (H.world host.old) (H.world host.new) }
    ensures created { OnOk result
        ((H.world host.new).created
        ≡ one_more output.now.name.now output.now.no_clobber (H.world host.old).created) }
{
    let mut file = host.create_file(output.name, output.no_clobber)?;
    let written = match write_all(&mut file, bytes) {
        Ok(()) => Ok(bytes.len() as u64),
        Err(_) => Err(Unwritten::Writing),
    };
    commit(host, output, file, written, failure)?;
    Ok(())
}
