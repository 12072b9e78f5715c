//! Sessions and their frames.
ghost use Rattle.std.specs.Prelude.{◌<◌};

use crate::is_shown_as;
use session::{
    Device, Failed, FrameFault, Pieces, Read, ReadFault, Session, Sink, Write, fill, join_frames,
    read_next, read_to_end, write_all, write_one,
};
use std::alloc::Global;
use std::io::{self, BufWriter, ErrorKind};
use std::test::Fail;

// Whether what is read are so many datagrams, or no session for this reason.
pub(crate) fn is_session<R: Read>(
    alloc: Global,
    reader: &mut R,
    wanted: Result<usize, FrameFault>,
) -> bool {
    match Session::read(alloc, reader) {
        Ok(session) => wanted == Ok(session.len()),
        Err(fault) => wanted == Err(fault),
    }
}

#[test]
fn no_sessions(rt: HostRuntime) {
    for (bytes, fault) in [
        ([0xFF, 0xFF].as_slice(), FrameFault::TooLong),
        ([0xFF, 0xE4].as_slice(), FrameFault::TooLong),
        ([0xFF, 0xE3].as_slice(), FrameFault::CutDatagram),
        ([0].as_slice(), FrameFault::CutLength),
        ([0, 0, 0].as_slice(), FrameFault::CutLength),
        ([0, 0x21, 0x10].as_slice(), FrameFault::CutDatagram),
        ([0, 0x21].as_slice(), FrameFault::CutDatagram),
    ] {
        for most in 1..=8usize {
            let mut reader = Pieces::new(bytes, most);
            let right = is_session(rt.alloc(), &mut reader, Err(fault));
            assert!(rt; right, "{} bytes in pieces of {most}", bytes.len());
        }
    }
}

// Whether what is read is a session of these datagrams.
fn has_datagrams(alloc: Global, reader: &mut Pieces<'_>, datagrams: &[&[u8]]) -> bool {
    match Session::read(alloc, reader) {
        Ok(session) => is_of(alloc, &session, datagrams),
        Err(_) => false,
    }
}

fn is_of(alloc: Global, session: &Session, datagrams: &[&[u8]]) -> bool {
    match session.views(alloc) {
        Ok(views) => views.as_slice() == datagrams,
        Err(_) => false,
    }
}

// No datagram, one of no bytes, and two.
#[test]
fn short_sessions(rt: HostRuntime) {
    for (file, datagrams) in [
        (&[][..], &[][..]),
        (&[0, 0], &[&[][..]]),
        (&[0, 1, 7, 0, 3, 1, 2, 3], &[&[7], &[1, 2, 3]]),
    ] {
        for most in 1..=8usize {
            let right = has_datagrams(rt.alloc(), &mut Pieces::new(file, most), datagrams);
            assert!(rt; right, "{} bytes in pieces of {most}", file.len());
        }
    }
}

// Whether the file that a session is written to, byte by byte, is this.
fn has_file(alloc: Global, session: &Session, file: &[u8]) -> bool {
    let mut written = Sink::limited(alloc, 1, usize::MAX);
    session.write(&mut written).is_ok() && written.bytes() == file
}

#[test]
fn two_datagrams(rt: HostRuntime) -> Result<(), Fail> {
    let mut session = Session::new(rt.alloc());
    assert!(rt; session.push([7].to_vec(rt.alloc())?).is_ok());
    assert!(rt; session.push([1, 2, 3].to_vec(rt.alloc())?).is_ok());
    assert!(rt; has_file(rt.alloc(), &session, &[0, 1, 7, 0, 3, 1, 2, 3]));
    Ok(())
}

fn is_next(alloc: Global, reader: &mut Pieces<'_>, bytes: &[u8]) -> bool {
    match read_next(alloc, reader) {
        Ok(Some(datagram)) => datagram.as_slice() == bytes,
        _ => false,
    }
}

/// Whether just this is left to be read.
pub(crate) fn is_left(alloc: Global, reader: &mut Pieces<'_>, unread: &[u8]) -> bool {
    match read_to_end(alloc, reader) {
        Ok(left) => left.as_slice() == unread,
        Err(_) => false,
    }
}

// Reads and writes of a datagram do for streams that hold more.
#[test]
fn read_byte_by_byte(rt: HostRuntime) {
    let mut reader = Pieces::new(&[0, 2, 5, 6, 9, 8], 1);
    assert!(rt; is_next(rt.alloc(), &mut reader, &[5, 6]));
    let mut one = [0; 1];
    assert!(rt; fill(&mut reader, &mut one) == Ok(1));
    assert!(rt; one == [9]);
    assert!(rt; is_left(rt.alloc(), &mut reader, &[8]));
}

#[test]
fn written_byte_by_byte(rt: HostRuntime) {
    let mut written = Sink::limited(rt.alloc(), 1, usize::MAX);
    let right = write_one(&mut written, &[5, 6]).is_ok()
        && write_all(&mut written, &[9, 8]).is_ok();
    assert!(rt; right && written.bytes() == [0, 2, 5, 6, 9, 8].as_slice());
}

// The file of the datagrams `00`, `01`, `02`.
const THREE: [u8; 9] = [0, 1, 0, 0, 1, 1, 0, 1, 2];

// Their session.
fn three(alloc: Global) -> Result<Session, FrameFault> {
    Session::read(alloc, &mut Pieces::new(&THREE, 2))
}

// Whether a session's writer with so much room has this beginning of its file, and fails behind it.
fn is_written_up_to(alloc: Global, session: &Session, room: usize) -> bool {
    let mut sink = Sink::limited(alloc, 2, room);
    session.write(&mut sink).is_ok() == (room == 9)
        && sink.bytes() == THREE.split_at(room.min(9)).0
        && write_all(&mut sink, &[1]).is_err()
}

#[test]
fn a_writer_that_fails(rt: HostRuntime) -> Result<(), Fail> {
    let session = three(rt.alloc())?;
    for room in 0..=9usize {
        assert!(rt; is_written_up_to(rt.alloc(), &session, room), "room {room}");
    }
    Ok(())
}

#[test]
fn a_device_that_is_read(rt: HostRuntime) {
    let mut reader = Device::new([0, 1, 7].as_slice());
    assert!(rt; is_session(rt.alloc(), &mut reader, Ok(1)));
    assert!(rt; reader.into_inner().is_empty());
}

#[test]
fn a_device_that_is_written(rt: HostRuntime) -> Result<(), Fail> {
    let session = Session::read(rt.alloc(), &mut Pieces::new(&[0, 1, 7], 2))?;
    let mut writer = Device::new(Vec::new(rt.alloc()));
    assert!(rt; session.write(&mut writer).is_ok());
    assert!(rt; writer.into_inner().as_slice() == [0, 1, 7].as_slice());
    Ok(())
}

/// Gives these bytes, one at a time, and then fails once, with the bytes behind them still to come.
#[derive(Drop)]
pub(crate) struct Broken<'a> {
    before: &'a [u8],
    behind: &'a [u8],
    broken: bool,
}

impl io::Read for Broken<'_> {
    fn read(&mut self, buf: &mut [u8]) -> io::Result<usize> {
        if self.before.is_empty() && !self.broken {
            self.broken = true;
            return Err(io::Error::from(ErrorKind::Other));
        }
        let rest = if self.broken {
            self.behind
        } else {
            self.before
        };
        let n = rest.len().min(buf.len()).min(1);
        buf[..n].copy_from_slice(&rest[..n]);
        if self.broken {
            self.behind = &rest[n..];
        } else {
            self.before = &rest[n..];
        }
        Ok(n)
    }
}

pub(crate) fn breaking_between<'a>(before: &'a [u8], behind: &'a [u8]) -> Device<Broken<'a>> {
    Device::new(Broken {
        before,
        behind,
        broken: false,
    })
}

fn is_broken<T>(read: &Result<T, ReadFault>) -> bool {
    match read {
        Ok(_) => false,
        Err(fault) => *fault == ReadFault::Io,
    }
}

// A read that fails in mid-stream is told as such, wherever it stands, and so is each call behind
// it.
#[test]
fn a_reader_that_fails(rt: HostRuntime) {
    for at in 0..=9usize {
        let (before, behind) = THREE.split_at(at);
        let mut reader = breaking_between(before, behind);
        let right = is_session(rt.alloc(), &mut reader, Err(FrameFault::Io));
        assert!(rt; right, "a session broken at {at}");
        assert!(rt; reader.read(&mut [0; 4]) == Err(Failed), "behind {at}");
        let mut reader = breaking_between(before, behind);
        let right = is_broken(&read_to_end(rt.alloc(), &mut reader));
        assert!(rt; right, "broken at {at}");
        let mut reader = breaking_between(before, behind);
        let right = fill(&mut reader, &mut [0; 9]).is_ok() == (at == 9);
        assert!(rt; right, "filling broken at {at}");
    }
}

// Takes so many bytes, two at a time, and then fails once. It is never flushed.
#[derive(Drop)]
struct Full {
    taken: Vec<u8>,
    room: usize,
}

impl io::Write for Full {
    fn write(&mut self, bytes: &[u8]) -> io::Result<usize> {
        if self.room == 0 {
            self.room = 9;
            return Err(io::Error::from(ErrorKind::Other));
        }
        let n = bytes.len().min(self.room).min(2);
        self.taken.extend_from_slice(&bytes[..n])?;
        self.room -= n;
        Ok(n)
    }

    fn flush(&mut self) -> io::Result<()> {
        Err(io::Error::from(ErrorKind::Other))
    }
}

// Whether a session's writer that is full behind so many bytes has these, and takes no more.
fn fills(alloc: Global, session: &Session, room: usize) -> bool {
    let mut writer = Device::new(Full {
        taken: Vec::new(alloc),
        room,
    });
    let right = session.write(&mut writer).is_ok() == (room == 9);
    right
        && writer.write(&[7]) == Err(Failed)
        && writer.into_inner().taken.as_slice() == THREE.split_at(room.min(9)).0
}

// A write that fails in mid-stream is told as such, and so is each call behind it, with a beginning
// written.
#[test]
fn a_device_that_is_full(rt: HostRuntime) -> Result<(), Fail> {
    let session = three(rt.alloc())?;
    for room in 0..=9usize {
        assert!(rt; fills(rt.alloc(), &session, room), "room {room}");
    }
    Ok(())
}

// A buffer passes all on when it is flushed, ...
#[test]
fn a_buffer(rt: HostRuntime) -> Result<(), Fail> {
    let taken = Vec::new(rt.alloc());
    let mut writer = Device::new(BufWriter::with_capacity(rt.alloc(), 4, taken)?);
    assert!(rt; write_all(&mut writer, &[1, 2, 3]) == Ok(()));
    assert!(rt; writer.flush() == Ok(()));
    let (taken, left) = writer.into_inner().into_parts();
    assert!(rt; taken.as_slice() == [1, 2, 3].as_slice());
    assert!(rt; left.is_empty());
    Ok(())
}

// Whether a buffer of more than three bytes takes these, and its writer, when it is flushed,
// nothing, also the second time.
fn is_never_flushed(mut writer: Device<BufWriter<Full>>) -> bool {
    let right = write_all(&mut writer, &[1, 2, 3]).is_ok()
        && writer.flush() == Err(Failed)
        && writer.flush() == Err(Failed);
    let (full, left) = writer.into_inner().into_parts();
    drop(full);
    drop(left);
    right
}

// ... and an error of the last flush is told.
#[test]
fn a_buffer_that_is_not_flushed(rt: HostRuntime) -> Result<(), Fail> {
    let full = Full {
        taken: Vec::new(rt.alloc()),
        room: 9,
    };
    let writer = BufWriter::with_capacity(rt.alloc(), 4, full)?;
    assert!(rt; is_never_flushed(Device::new(writer)));
    Ok(())
}

// Whether a writer takes five bytes, and has just these.
fn takes_five(mut sink: Sink) -> bool {
    write_all(&mut sink, &[1, 2, 3]).is_ok()
        && write_all(&mut sink, &[4, 5]).is_ok()
        && write_all(&mut sink, &[6]) == Err(Failed)
        && sink.into_bytes().as_slice() == [1, 2, 3, 4, 5].as_slice()
}

// A writer with memory for all of its room takes just that.
#[test]
fn a_reserved_sink(rt: HostRuntime) -> Result<(), Fail> {
    let sink = Sink::reserved(rt.alloc(), 2, 5)?;
    assert!(rt; takes_five(sink));
    Ok(())
}

#[test]
fn texts(rt: HostRuntime) -> Result<(), Fail> {
    for (fault, text) in [
        (FrameFault::CutLength, "S1 CutLength"),
        (FrameFault::CutDatagram, "S2 CutDatagram"),
        (FrameFault::TooLong, "S3 TooLong"),
        (FrameFault::Io, "S4 Io"),
        (FrameFault::NoMemory, "S5 NoMemory"),
        (FrameFault::NoSuchPlace(7), "S6 NoSuchPlace 7"),
    ] {
        assert!(rt; is_shown_as(rt.alloc(), fault, text)?, "{text}");
    }
    Ok(())
}

// Whether the session's datagrams at these places have this file.
fn keeps(alloc: Global, session: &Session, places: &[usize], file: &[u8]) -> bool {
    match session.keep(alloc, places) {
        Ok(kept) => has_file(alloc, &kept, file),
        Err(_) => false,
    }
}

// Why they can't be taken, if they can't.
fn keeping_fault(alloc: Global, session: &Session, places: &[usize]) -> Option<FrameFault> {
    match session.keep(alloc, places) {
        Ok(_) => None,
        Err(fault) => Some(fault),
    }
}

#[test]
fn chosen_datagrams(rt: HostRuntime) -> Result<(), Fail> {
    let alloc = rt.alloc();
    let session = three(alloc)?;
    assert!(rt; keeps(alloc, &session, &[2, 0, 0], &[0, 1, 2, 0, 1, 0, 0, 1, 0]));
    assert!(rt; keeps(alloc, &session, &[], &[]));
    let fault = keeping_fault(alloc, &session, &[2, 4, 3]);
    assert!(rt; fault == Some(FrameFault::NoSuchPlace(4)));
    Ok(())
}

// Whether the session's datagrams at all other places have this file.
fn leaves(alloc: Global, session: &Session, places: &[usize], file: &[u8]) -> bool {
    match session.without(alloc, places) {
        Ok(left) => has_file(alloc, &left, file),
        Err(_) => false,
    }
}

// Why these can't be left out, if they can't.
fn leaving_fault(alloc: Global, session: &Session, places: &[usize]) -> Option<FrameFault> {
    match session.without(alloc, places) {
        Ok(_) => None,
        Err(fault) => Some(fault),
    }
}

#[test]
fn datagrams_left(rt: HostRuntime) -> Result<(), Fail> {
    let alloc = rt.alloc();
    let session = three(alloc)?;
    assert!(rt; leaves(alloc, &session, &[1, 1], &[0, 1, 0, 0, 1, 2]));
    assert!(rt; leaves(alloc, &session, &[], &THREE));
    let fault = leaving_fault(alloc, &session, &[3]);
    assert!(rt; fault == Some(FrameFault::NoSuchPlace(3)));
    Ok(())
}

// The sessions of these files.
fn sessions_of(alloc: Global, files: &[&[u8]]) -> Result<Vec<Session>, FrameFault> {
    let mut sessions = Vec::new(alloc);
    for file in files {
        let session = Session::read(alloc, &mut Pieces::new(file, 2))?;
        if sessions.push(session).is_err() {
            return Err(FrameFault::NoMemory);
        }
    }
    Ok(sessions)
}

// Whether the sessions of these files, joined, are so many datagrams and have this file.
fn join_to(alloc: Global, files: &[&[u8]], turns: bool, count: usize, file: &[u8]) -> bool {
    match sessions_of(alloc, files) {
        Ok(sessions) => is_joined(alloc, &sessions, turns, count, file),
        Err(_) => false,
    }
}

fn is_joined(alloc: Global, sessions: &[Session], turns: bool, count: usize, file: &[u8]) -> bool {
    match Session::join(alloc, sessions, turns) {
        Ok(session) => session.len() == count && has_file(alloc, &session, file),
        Err(_) => false,
    }
}

// What copying the datagrams of these readers to a writer says.
fn copying(
    alloc: Global,
    files: &[&'static [u8]],
    most: usize,
    turns: bool,
    writer: &mut Sink,
) -> Result<usize, FrameFault>
    requires { 0 < most }
{
    let mut readers = Vec::new(alloc);
    for file in files {
        if readers.push(Pieces::new(file, most)).is_err() {
            return Err(FrameFault::NoMemory);
        }
    }
    join_frames(alloc, readers.as_mut_slice(), turns, writer)
}

// Whether copying ends so, with this written.
fn copies_to(
    alloc: Global,
    files: &[&'static [u8]],
    most: usize,
    turns: bool,
    wanted: Result<usize, FrameFault>,
    file: &[u8],
) -> bool
    requires { 0 < most }
{
    let mut writer = Sink::new(alloc);
    copying(alloc, files, most, turns, &mut writer) == wanted && writer.bytes() == file
}

const TENS: &[u8] = &[0, 1, 10, 0, 1, 11, 0, 1, 12];

const TWENTIES: &[u8] = &[0, 1, 20, 0, 1, 21, 0, 1, 22, 0, 1, 23];

const ONE_BEHIND_THE_OTHER: &[u8] = &[
    0, 1, 10, 0, 1, 11, 0, 1, 12, 0, 1, 20, 0, 1, 21, 0, 1, 22, 0, 1, 23,
];

const IN_TURNS: &[u8] = &[
    0, 1, 10, 0, 1, 20, 0, 1, 11, 0, 1, 21, 0, 1, 12, 0, 1, 22, 0, 1, 23,
];

// Sessions joined, and their frames copied.
#[test]
fn joined_sessions(rt: HostRuntime) {
    let alloc = rt.alloc();
    for (files, turns, count, file) in [
        (&[][..], false, 0, &[][..]),
        (&[], true, 0, &[]),
        (&[&[][..]], false, 0, &[]),
        (&[&[]], true, 0, &[]),
        (&[TENS], false, 3, TENS),
        (&[TENS], true, 3, TENS),
        (&[&[], TENS, &[]], false, 3, TENS),
        (&[&[], TENS, &[]], true, 3, TENS),
        (&[TENS, TWENTIES], false, 7, ONE_BEHIND_THE_OTHER),
        (&[TENS, TWENTIES], true, 7, IN_TURNS),
    ] {
        let right = join_to(alloc, files, turns, count, file);
        assert!(rt; right, "{} joined, in turns: {turns}", files.len());
        let right = copies_to(alloc, files, 2, turns, Ok(count), file);
        assert!(rt; right, "{} copied, in turns: {turns}", files.len());
    }
}

// What was written before the fault is a beginning of the frames, joined.
#[test]
fn a_reader_cut_in_its_turn(rt: HostRuntime) {
    let files: [&[u8]; 2] = [&[0, 1, 10, 0, 1, 11], &[0, 1, 20, 0]];
    let beginning = [0, 1, 10, 0, 1, 20, 0, 1, 11];
    let cut = Err(FrameFault::CutLength);
    assert!(rt; copies_to(rt.alloc(), &files, 3, true, cut, &beginning));
}

#[test]
fn a_writer_without_room(rt: HostRuntime) {
    let mut writer = Sink::limited(rt.alloc(), 2, 4);
    let copied = copying(rt.alloc(), &[&[0, 1, 10, 0, 1, 11]], 3, false, &mut writer);
    assert!(rt; copied == Err(FrameFault::Io));
    assert!(rt; writer.bytes() == [0, 1, 10, 0].as_slice());
}
