//! A fault of a check, as it is told.
ghost use Rattle.std.specs.Prelude.{◌≡◌};
ghost use Rattle.check_commands.specs.CheckFaults.{fault_of};

use cert::CheckFault;
use commands::Fault;

/// The fault, by the names of the session and of the object.
pub(crate) fn check_fault<'a>(session: &'a str, object: &'a str, fault: CheckFault) -> Fault<'a>
    ensures { result ≡ fault_of session.entry object.entry fault }
{
    match fault {
        CheckFault::Frame(fault) => Fault::Frame(fault),
        CheckFault::Session => Fault::File(session),
        CheckFault::Object => Fault::File(object),
        CheckFault::Certificate(fault) => Fault::Certificate(fault),
        CheckFault::NoMemory => Fault::Memory,
    }
}
