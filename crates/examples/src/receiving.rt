//! A receiver is fed the datagrams one by one, one of them no packet, until it has the object.

use crate::fault::ExampleFault;
use crate::sending::IDENTITY;
use decoder::Answer;
use receiver::{Progress, Receiver};
use session::Session;

/// Feeds the session's datagrams, and tells what the receiver makes of them.
pub(crate) fn receive(rt: &HostRuntime, session: &Session) -> Result<(), ExampleFault> {
    let alloc = rt.alloc();
    let mut receiver = Receiver::new(IDENTITY);
    for place in 0..session.len() {
        match receiver.feed(alloc, session.get(place)) {
            Ok(Progress::More) => {}
            Ok(Progress::Complete) => {
                println!(rt; "complete after {} datagrams", place + 1)?;
                break;
            }
            Err(fault) => println!(rt; "refused {place}: {fault}")?,
        }
    }
    match receiver.take(alloc)? {
        Answer::Object(object) => println!(rt; "{} bytes", object.len())?,
        _ => println!(rt; "not yet")?,
    }
    Ok(())
}
