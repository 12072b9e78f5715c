//! A certificate in a file, of which nothing is held but what stands in front.
ghost use Rattle.std.specs.Prelude.{◌≡◌, ◌<◌, ◌≤◌, ◌+◌, ◌*◌, Some, None, false, true, length};
ghost use Rattle.std.specs.Prelude.{IfOk, IfErr, IfSome, OnOk, OnErr, ℕ, List};
ghost use Rattle.std.proofs.Props.{props};
ghost use Rattle.partition.specs.Fti.{IsValidFti, block_count, source_count, start_of};
ghost use Rattle.streams.specs.Offsets.{StandsAt};
ghost use Rattle.certificate.specs.Certificate.{IsCertFault, is_for as is_for_name};
ghost use Rattle.certificate.specs.CoefficientRows.{AreRowsOf};
ghost use Rattle.certificate.specs.InFile.{HoldsText, IsLost, certificate_in, front_of};

use crate::certificate::{CertFault, coefficients_of, is_for};
use crate::column_text::turn_front;
use crate::head::{LENGTH, LENGTH_OF_NAMED, read_head};
use partition::Fti;
use reception::Identity;
use session::Failed;
use streams::{Cursor, ReadAt, fill_at, has_length};

/// A certificate in a file that is read at offsets. Its coefficients stay there.
#[derive(Drop)]
pub struct CertificateFile<'a, C: ReadAt> {
    pub file: &'a C,
    pub fti: Fti,
    pub name: Option<Identity>,
    ghost valid: { IsValidFti fti },
    ghost text: { HoldsText (C.content file.now) fti name } by { Prim.hlevel props },
}

// How many bytes stand before the coefficients of a certificate with this name, or without one.
fn front_of_name(name: &Option<Identity>) -> u64
    ensures value { result ≡ front_of name.now }
    ensures few { result ≤ 34 }
{
    match name {
        Some(_) => LENGTH_OF_NAMED as u64,
        None => LENGTH as u64,
    }
}

impl<'a, C: ReadAt> CertificateFile<'a, C> {
    /// The certificate in a file. `Magic`, `Fti` and `Size` tell why the file has none, `Io` that
    /// it has failed.
    pub fn open(file: &'a C) -> Result<CertificateFile<'a, C>, CertFault>
        ensures file { IfOk result (λ z. z.file.now ≡ file.now) }
        ensures fault { IfErr result (λ e. IsCertFault e (C.content file.now) true) }
        ensures unsound { IfErr result (λ e.
            e ≡ CertFault.Io → C.reliable file.now ≡ false) }
    {
        let mut front = Cursor::new(file);
        let head = read_head(&mut front)?;
        let fti = head.fti;
        let name = head.name;
        match has_length(file, front_of_name(&name) + coefficients_of(&fti)) {
            Ok(true) => Ok(CertificateFile { file, fti, name }),
            Ok(false) => Err(CertFault::Size),
            Err(Failed) => Err(CertFault::Io),
        }
    }

    /// Whether it has no name, or this one.
    pub fn is_for(&self, identity: &Identity) -> bool
        ensures { result ≡ is_for_name identity.now self.now.name }
    {
        is_for(identity, &self.name)
    }

    // Reads a block's coefficients, as they stand in the file.
    fn read_block(&self, block: u32, told: &mut [u8]) -> Result<(), Failed>
        requires block { block < block_count self.now.fti }
        requires size { length told.old
            ≡ source_count self.now.fti block * self.now.fti.symbol_length }
        ensures told { OnOk result (StandsAt (C.content self.now.file.now)
            (front_of self.now.name + start_of self.now.fti block * self.now.fti.symbol_length)
            told.new) }
        ensures len { length told.new ≡ length told.old }
        ensures lost { OnErr result
            (IsLost (C.content self.now.file.now) (C.reliable self.now.file.now)) }
    {
        let width = u64::from(self.fti.symbol_length());
        let from = front_of_name(&self.name) + self.fti.start(block) * width;
        if fill_at(self.file, from, told)? < told.len() {
            return Err(Failed);
        }
        Ok(())
    }

    /// Reads the rows of coefficients of a block, one behind the other. Those of a certificate
    /// without a name stand column by column in the file, and come to `room` first. `Failed` tells
    /// that the file has failed, or has changed.
    pub fn read_rows(&self, block: u32, room: &mut [u8], rows: &mut [u8]) -> Result<(), Failed>
        requires block { block < block_count self.now.fti }
        requires size { length rows.old
            ≡ source_count self.now.fti block * self.now.fti.symbol_length }
        requires room { length rows.old ≤ length room.old }
        ensures rows { (text : List ℕ) → C.content self.now.file.now ≡ Some text
            → OnOk result (AreRowsOf (certificate_in text self.now.fti self.now.name) block
            rows.new) }
        ensures len { length rows.new ≡ length rows.old }
        ensures room { length room.new ≡ length room.old }
        ensures lost { OnErr result
            (IsLost (C.content self.now.file.now) (C.reliable self.now.file.now)) }
    {
        match self.name {
            Some(_) => self.read_block(block, rows),
            None => {
                let columns = &mut room[..rows.len()];
                self.read_block(block, columns)?;
                let width = usize::from(self.fti.symbol_length());
                turn_front(rows, columns, self.fti.k(block), width);
                Ok(())
            }
        }
    }
}
