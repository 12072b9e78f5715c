//! Outputs that find little room, and statuses.
use crate::command::host_of;
use crate::sessions::PAIR_SESSION;
use host::MemoryHost;
use session::Sink;
use std::test::Fail;
use tool::{answer, refuse, refuse_memory, status_after};

// Where the line can't be printed the output is there all the same, and the status is 1.
#[test]
fn an_output_without_its_line(rt: HostRuntime) -> Result<(), Fail> {
    let alloc = rt.alloc();
    let left = &PAIR_SESSION[35..];
    for room in [0, 6, 16] {
        let out = Sink::limited(alloc, 5, room);
        let mut host = host_of(alloc, &[("s", &PAIR_SESSION)], out)?;
        let mut err = Sink::new(alloc);
        let words = ["alcrs", "drop", "s", "o", "0"];
        assert_eq!(rt; answer(alloc, &words, &mut host, &mut err), 1);
        assert_eq!(rt; host.printed(), &b"kept 2 datagrams\n"[..room]);
        assert_eq!(rt; host.get("o"), Some(left));
        assert_eq!(rt; host.created().len(), 1);
    }
    Ok(())
}

// Where a line of `follow` can't be printed the object is received and written all the same. No
// more is printed, and the status is 1. The first line is that of a datagram that is no packet.
#[test]
fn a_reception_without_its_lines(rt: HostRuntime) -> Result<(), Fail> {
    let alloc = rt.alloc();
    let mut session = vec![in alloc; 0u8, 1, 255]?;
    session.extend_from_slice(&PAIR_SESSION)?;
    let lines = b"refused 0 R1 Packet P1 TooShort\ncomplete after 3 datagrams\nobject 2 bytes\n";
    for room in [0, 32, 40, 60] {
        let out = Sink::limited(alloc, 5, room);
        let mut host = host_of(alloc, &[("s", session.as_slice())], out)?;
        let mut err = Sink::new(alloc);
        let words = ["alcrs", "follow", "s", "o", "--tsi", "1", "--toi", "1"];
        assert_eq!(rt; answer(alloc, &words, &mut host, &mut err), 1);
        assert_eq!(rt; host.printed(), &lines[..room]);
        assert_eq!(rt; host.get("o"), Some([1u8, 2].as_slice()));
        assert_eq!(rt; host.created().len(), 1);
    }
    Ok(())
}

#[test]
fn help_that_finds_no_room(rt: HostRuntime) -> Result<(), Fail> {
    let alloc = rt.alloc();
    for room in [0, 9] {
        let mut host = host_of(alloc, &[], Sink::limited(alloc, 4, room))?;
        let mut err = Sink::new(alloc);
        let words = ["alcrs", "--help"];
        assert_eq!(rt; answer(alloc, &words, &mut host, &mut err), 1);
        assert_eq!(rt; host.printed().len(), room);
        assert!(rt; err.bytes().is_empty());
    }
    Ok(())
}

// The status is 2, as where the refusal is told.
#[test]
fn a_refusal_that_finds_no_room(rt: HostRuntime) -> Result<(), Fail> {
    let alloc = rt.alloc();
    for room in [0, 9] {
        let mut host = host_of(alloc, &[], Sink::new(alloc))?;
        let mut err = Sink::limited(alloc, 4, room);
        let words = ["alcrs", "encode", "text"];
        assert_eq!(rt; answer(alloc, &words, &mut host, &mut err), 2);
        assert_eq!(rt; err.bytes().len(), room);
        assert!(rt; host.printed().is_empty());
    }
    Ok(())
}

#[test]
fn statuses(rt: HostRuntime) -> Result<(), Fail> {
    let mut out = Sink::new(rt.alloc());
    assert_eq!(rt; refuse_memory(&mut out), 1);
    assert_eq!(rt; out.bytes(), b"fault memory\n".as_slice());
    let mut full = Sink::limited(rt.alloc(), 1, 0);
    assert_eq!(rt; refuse_memory(&mut full), 1);
    let mut host = MemoryHost::new(rt.alloc(), 7, Sink::new(rt.alloc()));
    assert_eq!(rt; refuse(&mut host), 1);
    assert_eq!(rt; host.printed(), b"fault memory\n".as_slice());
    for status in 0..=3u8 {
        assert_eq!(rt; status_after(status, Ok(())), status);
        assert_eq!(rt; status_after(status, Err(session::Failed)), 1);
    }
    Ok(())
}
