//! An object is encoded and certified, its session is checked, loses datagrams, and what is left
//! gives the object.

use crate::fault::ExampleFault;
use cert::{Verdict, check};
use coder::{certify, encode};
use decoder::{Answer, decode};
use partition::{Fti, Order};
use reception::Identity;
use session::{Pieces, Session, Sink};
use std::alloc::{AllocError, Global};

pub(crate) const OBJECT: &[u8] = b"An object of 40 bytes, in 8-byte symbols";

pub(crate) const IDENTITY: Identity = Identity { tsi: 7, toi: 2 };

/// 5 source symbols of 8 bytes in one block, and 3 repair symbols.
pub(crate) fn fti() -> Result<Fti, ExampleFault> {
    Ok(Fti::new(OBJECT.len() as u64, 8, 5, 8)?)
}

/// The object's session: 8 datagrams, each of which carries the FTI.
pub(crate) fn sent(alloc: Global) -> Result<Session, ExampleFault> {
    let mut file = Sink::new(alloc);
    encode(alloc, OBJECT, 7, 2, &fti()?, 1, Order::Blocks, &mut file)?;
    Ok(Session::read(alloc, &mut Pieces::new(file.bytes(), 4096))?)
}

/// The object's session behind a datagram that is no packet.
pub(crate) fn with_a_stray(alloc: Global) -> Result<Session, ExampleFault> {
    let mut stray = Session::new(alloc);
    let Ok(()) = stray.push(b"no packet".to_vec(alloc)?) else {
        return Err(ExampleFault::Memory(AllocError));
    };
    Ok(Session::join(alloc, &[stray, sent(alloc)?], false)?)
}

/// Checks the session, and decodes it without as many datagrams as may be missed.
pub(crate) fn send(rt: &HostRuntime) -> Result<(), ExampleFault> {
    let alloc = rt.alloc();
    let session = sent(alloc)?;
    let certificate = certify(alloc, OBJECT, &fti()?)?;
    match check(alloc, &session, OBJECT, &certificate, IDENTITY)? {
        Verdict::Yes(report) => println!(rt; "any {} datagrams may be missed", report.margin)?,
        Verdict::No(reason) => println!(rt; "no {reason:?}")?,
    }
    let received = session.without(alloc, &[0, 3, 7])?;
    let answer = decode(alloc, &received.views(alloc)?, IDENTITY)?;
    tell_answer(rt, &answer)
}

fn tell_answer(rt: &HostRuntime, answer: &Answer) -> Result<(), ExampleFault> {
    match answer {
        Answer::Object(object) => println!(rt; "as sent: {}", object.as_slice() == OBJECT)?,
        Answer::Missing { block, have, need } => {
            println!(rt; "block {block} has {have} symbols and needs {need}")?;
        }
        Answer::Empty => println!(rt; "nothing came")?,
        Answer::Fault(fault) => println!(rt; "{fault}")?,
    }
    Ok(())
}
