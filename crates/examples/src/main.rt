//! Short programs over the library: an object that is sent, thinned and decoded in memory; a
//! receiver that is fed datagrams one by one; and a few lines on each of the other crates.
#![tactic(auto)]

mod calls;
mod fault;
mod receiving;
mod sending;

use calls::call_all;
use fault::ExampleFault;
use receiving::receive;
use sending::{send, with_a_stray};
use std::process::ExitCode;

fn run(rt: &HostRuntime) -> Result<(), ExampleFault> {
    send(rt)?;
    receive(rt, &with_a_stray(rt.alloc())?)?;
    call_all(rt)
}

fn main(rt: HostRuntime) -> ExitCode {
    match run(&rt) {
        Ok(()) => ExitCode::SUCCESS,
        Err(_) => ExitCode::FAILURE,
    }
}
