//! A value's place in memory, and what it owns: a receiver's, and a checker's.
ghost use Rattle.std.specs.Prelude.{◌≡◌, Bool, true, false};
ghost use Rattle.cert.specs.declared.checker.Checker.{Checker as CheckerValue};
ghost use Rattle.receiver.specs.declared.receiver.Receiver.{Receiver as ReceiverValue};
ghost use Rattle.alcrs_c.specs.Ownership.{receiver_row, checker_row};

use crate::apart::Apart;
use cert::Checker;
use receiver::Receiver;
use std::alloc::Global;
use std::marker::Model;

/// Where a receiver is, if there is one.
#[repr(C)]
#[derive(Drop)]
pub struct HeldReceiver {
    place: *mut u8,
    pub ghost full: { Bool },
    pub ghost value: { ReceiverValue } by { receiver_row.coded },
}

impl Model for HeldReceiver {
    ghost use Rattle.alcrs_c.specs.Ownership.{held, receiver_row};

    ghost also_owns = { λ h. held receiver_row h.full h.place h.value };
}

impl HeldReceiver {
    // Puts a receiver where there is none.
    pub(crate) fn put(&mut self, receiver: Apart<Receiver, Global>)
        ensures { (self.new.full ≡ true) × (self.new.value ≡ receiver.value) }
    {
        let Apart { place, alloc: _ } = receiver;
        self.place = place as *mut u8;
    }

    // Takes the receiver out.
    pub(crate) fn take(&mut self, alloc: Global) -> Apart<Receiver, Global>
        requires { self.old.full ≡ true }
        ensures { (self.new.full ≡ false) × (result.value ≡ self.old.value) }
    {
        Apart {
            place: self.place as *mut Receiver,
            alloc,
        }
    }
}

/// Where a checker is that owns all that it has, if there is one.
#[repr(C)]
#[derive(Drop)]
pub struct HeldChecker {
    place: *mut u8,
    pub ghost full: { Bool },
    pub ghost value: { CheckerValue } by { checker_row.coded },
}

impl Model for HeldChecker {
    ghost use Rattle.alcrs_c.specs.Ownership.{held, checker_row};

    ghost also_owns = { λ h. held checker_row h.full h.place h.value };
}

impl HeldChecker {
    // Puts a checker where there is none.
    pub(crate) fn put(&mut self, checker: Apart<Checker<'static>, Global>)
        ensures { (self.new.full ≡ true) × (self.new.value ≡ checker.entry.value) }
    {
        let Apart { place, alloc: _ } = checker;
        self.place = place as *mut u8;
    }

    // Takes the checker out.
    pub(crate) fn take(&mut self, alloc: Global) -> Apart<Checker<'static>, Global>
        requires { self.old.full ≡ true }
        ensures { (self.new.full ≡ false) × (result.value ≡ self.old.value) }
    {
        Apart {
            place: self.place as *mut Checker<'static>,
            alloc,
        }
    }
}
