//! Symbols that are read again where their packets stand in a session file.
ghost use Rattle.std.specs.Prelude.{◌≡◌, ◌<◌, ◌≤◌, ◌+◌, ◌^◌, ℕ, List, Some, length, take, drop};
ghost use Rattle.std.specs.Prelude.{is_some, true, false, IfOk, IfErr, OnOk, IfSome, IsNone};
ghost use Rattle.std.specs.Str.{bytes_eq};
ghost use Rattle.std.specs.List.{All};
ghost use Rattle.std.proofs.Props.{props};
ghost use Rattle.partition.specs.Fti.{Fti as FtiValue};
ghost use Rattle.block_recovery.specs.Arrivals.{arrived_at};
ghost use Rattle.block_recovery.specs.Blocks.{HaveLength};
ghost use Rattle.file_decoder.specs.InFile.{symbol_in, extent_of, held_in, IsSymbolOf};
ghost use Rattle.file_decoder.specs.InFile.{IsSymbolIn, AreOfBlock, StandsIn, BlockStandsIn};
ghost use Rattle.file_decoder.specs.ReadAgain.{IsAmong, AreRead};
ghost use Rattle.decoder.specs.Sources.{IsUnreadOf};
ghost use Rattle.session.specs.Extents.{datagram_in};
ghost use Rattle.streams.specs.Offsets.{StandsAt};
ghost use Rattle.file_decoder.specs.declared.rereading.Place.{Place as PlaceValue};

use alc::Packet;
use block_recovery::{Arrival, push_arrival};
use decoder::Unread;
use reception::{Look, Scope};
use std::alloc::{AllocError, Global};
use streams::{Lanes, ReadAt, fill_at};

// How many bytes stand between two datagrams: the length of the second.
const LENGTH_SIZE: usize = 2;

/// Where a packet stands in a file, and whether it is a carrier.
#[derive(Clone, Copy)]
pub(crate) struct Place {
    pub(crate) offset: u64,
    pub(crate) length: u16,
    pub(crate) carrier: bool,
}

// So many bytes of a file, from an offset on, that stand in a reader's room from a place on.
#[derive(Clone, Copy)]
struct Run {
    from: usize,
    offset: u64,
    len: usize,
    ghost fits: { from + len < 2 ^ 64 },
}

impl Run {
    // None, from the front on.
    fn none() -> Run
        ensures from { result.from ≡ 0 }
        ensures len { result.len ≡ 0 }
    {
        Run {
            from: 0,
            offset: 0,
            len: 0,
        }
    }

    // Where a datagram begins in the room, if all of it is of the run.
    fn start_of(&self, place: Place) -> Option<usize>
        ensures start { IfSome result (IsAmong self.now.from self.now.offset self.now.len place) }
        ensures none { IsNone result → self.now.offset ≡ place.offset
            → place.length ≤ self.now.len → ⊥ }
    {
        let before = place.offset.checked_sub(self.offset)?;
        if before > self.len as u64 {
            return None;
        }
        let before = before as usize;
        if usize::from(place.length) > self.len - before {
            return None;
        }
        Some(self.from + before)
    }
}

// How many bytes a datagram has, and those of the others that follow one another from it on, with
// their lengths.
fn run_length(first: Place, others: &[Arrival<Place>]) -> usize
    ensures { first.length ≤ result }
{
    let mut len = usize::from(first.length);
    for arrival in others {
        let place = arrival.symbol;
        let next = len.saturating_add(LENGTH_SIZE);
        if place.offset.checked_sub(first.offset) != Some(next as u64) {
            return len;
        }
        len = next.saturating_add(usize::from(place.length));
    }
    len
}

/// A reader of a block's datagrams where they stand in a file. Those that follow one another are
/// read at once. The room of one block is used again for the next.
#[derive(Drop)]
pub(crate) struct BlockReader<'a, F: ReadAt> {
    lanes: Lanes<'a, F>,
    room: Vec<u8>,
    // Where each datagram of the block begins in the room.
    starts: Vec<usize>,
    // What was read last.
    run: Run,
    ghost within: { run.from + run.len ≤ length room.items },
    ghost stands: { StandsAt (F.content lanes.file.now) run.offset
        (take run.len (drop run.from room.items)) } by { Prim.hlevel props },
}

impl<'a, F: ReadAt> BlockReader<'a, F> {
    /// A reader with a lane for each ESI below a number. Nothing is read yet.
    pub(crate) fn new(
        alloc: Global,
        file: &'a F,
        count: usize,
    ) -> Result<BlockReader<'a, F>, AllocError>
        ensures { IfOk result (λ reader. reader.lanes.file.now ≡ file.now) }
    {
        Ok(BlockReader {
            lanes: Lanes::new(alloc, file, count)?,
            room: Vec::new(alloc),
            starts: Vec::new(alloc),
            run: Run::none(),
        })
    }

    // Reads so many bytes from a datagram's place on into the room, behind those of the last run.
    fn read_run(&mut self, esi: u8, place: Place, len: usize) -> Result<(), Unread>
        requires { place.length ≤ len }
        ensures from { OnOk result (self.new.run.from ≡ self.old.run.from + self.old.run.len) }
        ensures offset { OnOk result (self.new.run.offset ≡ place.offset) }
        ensures long { OnOk result ((x : List ℕ)
            → F.content self.old.lanes.file.now ≡ Some x
            → place.offset + place.length ≤ length x → place.length ≤ self.new.run.len) }
        ensures before { OnOk result (take (self.old.run.from + self.old.run.len)
            self.new.room.items
            ≡ take (self.old.run.from + self.old.run.len) self.old.room.items) }
        ensures starts { self.new.starts.items ≡ self.old.starts.items }
        ensures changed { IfErr result (λ e. e ≡ Unread.Changed → ⊥) }
        ensures io { IfErr result (λ e. e ≡ Unread.Io
            → F.reliable self.old.lanes.file.now ≡ false) }
        ensures file { self.new.lanes.file.now ≡ self.old.lanes.file.now }
    {
        let from = self.run.from + self.run.len;
        let Some(end) = from.checked_add(len) else {
            return Err(Unread::NoMemory);
        };
        self.run = Run::none();
        if self.room.len() < end {
            self.room.resize(end, 0)?;
        }
        let buf = &mut self.room.as_mut_slice()[from..end];
        let Ok(len) = self.lanes.fill(usize::from(esi), place.offset, buf) else {
            return Err(Unread::Io);
        };
        self.run = Run {
            from,
            offset: place.offset,
            len,
        };
        Ok(())
    }

    // Where a datagram begins in the room. If it isn't of the last run, it is read, and with it
    // those of the others that follow it.
    fn ready(&mut self, esi: u8, place: Place, others: &[Arrival<Place>]) -> Result<usize, Unread>
        ensures start { IfOk result
            (IsAmong self.new.run.from self.new.run.offset self.new.run.len place) }
        ensures more { OnOk result (self.old.run.from + self.old.run.len
            ≤ self.new.run.from + self.new.run.len) }
        ensures before { OnOk result (take (self.old.run.from + self.old.run.len)
            self.new.room.items
            ≡ take (self.old.run.from + self.old.run.len) self.old.room.items) }
        ensures starts { self.new.starts.items ≡ self.old.starts.items }
        ensures changed { IfErr result (λ e. e ≡ Unread.Changed → (x : List ℕ)
            → F.content self.old.lanes.file.now ≡ Some x
            → place.offset + place.length ≤ length x → ⊥) }
        ensures io { IfErr result (λ e. e ≡ Unread.Io
            → F.reliable self.old.lanes.file.now ≡ false) }
        ensures file { self.new.lanes.file.now ≡ self.old.lanes.file.now }
    {
        if let Some(start) = self.run.start_of(place) {
            return Ok(start);
        }
        self.read_run(esi, place, run_length(place, others))?;
        match self.run.start_of(place) {
            Some(start) => Ok(start),
            None => Err(Unread::Changed),
        }
    }

    /// Reads the datagrams of a block.
    pub(crate) fn read(&mut self, came: &[Arrival<Place>]) -> Result<(), Unread>
        ensures read { OnOk result (AreRead (F.content self.old.lanes.file.now) came.now
            self.new.starts.items self.new.room.items) }
        ensures changed { IfErr result (λ e. e ≡ Unread.Changed → (x : List ℕ)
            → F.content self.old.lanes.file.now ≡ Some x
            → All (λ a. a.symbol.offset + a.symbol.length ≤ length x) came.now → ⊥) }
        ensures io { IfErr result (λ e. e ≡ Unread.Io
            → F.reliable self.old.lanes.file.now ≡ false) }
        ensures file { self.new.lanes.file.now ≡ self.old.lanes.file.now }
    {
        self.run = Run::none();
        self.starts.clear();
        for i in 0..came.len() {
            let start = self.ready(came[i].esi, came[i].symbol, &came[i + 1..])?;
            let Ok(()) = self.starts.push(start) else {
                return Err(Unread::NoMemory);
            };
        }
        Ok(())
    }

    /// The symbols of a block whose datagrams were read.
    pub(crate) fn symbols(
        &self,
        alloc: Global,
        scope: &Scope,
        b: u32,
        came: &[Arrival<Place>],
    ) -> Result<Vec<Arrival<&[u8]>>, Unread>
        requires known { (f : FtiValue) × (scope.now.fti ≡ Some f) }
        requires read { AreRead (F.content self.now.lanes.file.now) came.now
            self.now.starts.items self.now.room.items }
        ensures some { (held : PlaceValue → List ℕ) → IfOk result (λ v. (j : ℕ)
            → is_some (arrived_at (λ s. s.now) v.items j)
            ≡ is_some (arrived_at held came.now j)) }
        ensures size { (f : FtiValue) → scope.now.fti ≡ Some f → IfOk result (λ v.
            HaveLength f.symbol_length (arrived_at (λ s. s.now) v.items)) }
        ensures symbols { (x : List ℕ) → F.content self.now.lanes.file.now ≡ Some x
            → AreOfBlock x scope.now b came.now → IfOk result (λ v.
            arrived_at (λ s. s.now) v.items ≡ arrived_at (held_in x) came.now) }
        ensures fault { IfErr result (IsUnreadOf
            (BlockStandsIn (F.content self.now.lanes.file.now) scope.now b came.now) true) }
    {
        let mut symbols = Vec::with_capacity(alloc, came.len())?;
        for i in 0..came.len() {
            let place = came[i].symbol;
            let esi = came[i].esi;
            let from = self.starts[i];
            let datagram = &self.room[from..from + usize::from(place.length)];
            let Some(symbol) = symbol_of(scope, b, esi, place.carrier, datagram) else {
                return Err(Unread::Changed);
            };
            push_arrival(&mut symbols, Arrival { esi, symbol })?;
        }
        Ok(symbols)
    }
}

// The symbol of a datagram, if it's a packet in range, of the block and the ESI, and a carrier just
// where this is told.
fn symbol_of<'a>(
    scope: &Scope,
    b: u32,
    esi: u8,
    carrier: bool,
    datagram: &'a [u8],
) -> Option<&'a [u8]>
    requires { (f : FtiValue) × (scope.now.fti ≡ Some f) }
    ensures symbol { IfSome result (λ s. s.now ≡ symbol_in datagram.now) }
    ensures size { (f : FtiValue) → scope.now.fti ≡ Some f
        → IfSome result (λ s. length s.now ≡ f.symbol_length) }
    ensures none { IsNone result → IsSymbolOf scope.now b esi carrier datagram.now → ⊥ }
{
    let mut known = *scope;
    let Ok(look) = known.look(datagram) else {
        return None;
    };
    let Look::InRange(packet) = look else {
        return None;
    };
    if packet.sbn != b || packet.esi != esi {
        return None;
    }
    if packet.fti.is_some() != carrier {
        return None;
    }
    Some(packet.symbol)
}

// The datagram at one place.
fn read_alone<F: ReadAt>(alloc: Global, file: &F, place: Place) -> Result<Vec<u8>, Unread>
    ensures bytes { (x : List ℕ) → F.content file.now ≡ Some x
        → place.offset + place.length ≤ length x
        → IfOk result (λ v. v.items ≡ datagram_in x (extent_of place)) }
    ensures changed { IfErr result (λ e. e ≡ Unread.Changed → (x : List ℕ)
        → F.content file.now ≡ Some x → place.offset + place.length ≤ length x → ⊥) }
    ensures io { IfErr result (λ e. e ≡ Unread.Io → F.reliable file.now ≡ false) }
{
    let mut datagram = vec![in alloc; 0u8; usize::from(place.length)]?;
    let Ok(got) = fill_at(file, place.offset, datagram.as_mut_slice()) else {
        return Err(Unread::Io);
    };
    if got < datagram.len() {
        return Err(Unread::Changed);
    }
    Ok(datagram)
}

/// Whether the symbol at one place, where a packet of the block and the ESI stood, has these bytes.
pub(crate) fn is_symbol<F: ReadAt>(
    alloc: Global,
    file: &F,
    scope: &Scope,
    packet: &Packet<'_>,
    place: Place,
) -> Result<bool, Unread>
    requires { (f : FtiValue) × (scope.now.fti ≡ Some f) }
    ensures same { (x : List ℕ) → F.content file.now ≡ Some x
        → IsSymbolIn x scope.now packet.now.sbn packet.now.esi place
        → IfOk result (λ same. same ≡ bytes_eq (held_in x place) packet.now.symbol.now) }
    ensures fault { IfErr result (IsUnreadOf
        (StandsIn (F.content file.now) scope.now packet.now.sbn packet.now.esi place)
        (F.reliable file.now)) }
{
    let datagram = read_alone(alloc, file, place)?;
    match symbol_of(scope, packet.sbn, packet.esi, place.carrier, &datagram) {
        Some(symbol) => Ok(symbol == packet.symbol),
        None => Err(Unread::Changed),
    }
}
