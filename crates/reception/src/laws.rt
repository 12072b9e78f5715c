//! Laws of the definitions, for callers to cite. They do nothing.
ghost use Rattle.alc.specs.Reading.{Reading};
ghost use Rattle.reception.specs.Reception.{ReadAll, asked};
ghost use Rattle.reception.specs.declared.scope.Identity.{Identity};
ghost use Rattle.reception.specs.Answer.{clash};
ghost use Rattle.reception.specs.First.{TellsTheFirst};
ghost use Rattle.reception.specs.Order.{TellsInOrder};
ghost use Rattle.reception.specs.Isolation.{IsIsolated};
ghost use Rattle.reception.specs.Nothing.{TellsEmpty};
ghost use Rattle.std.specs.Prelude.{ℕ, List};

/// A decoder's fault is the one at the least place that has one, and there the first in the order
/// of the definition.
pub fn first_fault()
    ensures { (who : Identity) → TellsTheFirst clash (asked who) }
{}

/// At one place a decoder's faults come in this order: no packet, another FTI, a symbol of another
/// length, out of range, a clash. Each is told exactly where it holds and none before it does.
pub fn fault_order()
    ensures { TellsInOrder clash }
{}

/// A decoder answers that nothing can be said exactly where each datagram is a packet, and none a
/// carrier of the identity: without a carrier no other fault is told.
pub fn empty_answer()
    ensures { (who : Identity) (datagrams : List (List ℕ)) → TellsEmpty who datagrams }
{}

/// A receiver of one object isn't disturbed by packets of others: an answer to the packets of an
/// identity, in a list of datagrams, and to what is no packet, taken alone, is the answer to the
/// list, with the places that they have there.
pub fn isolation()
    ensures { (who : Identity) (datagrams : List (List ℕ)) (readings : List Reading)
        → ReadAll datagrams readings → IsIsolated who datagrams readings }
{}
