//! A law of the definitions, for callers to cite. It does nothing.
ghost use Rattle.partition.specs.FaultOrder.{TellsInOrder};

/// The faults of an FTI's numbers come in the order of [`FtiError`](crate::FtiError): each is told
/// exactly if it holds, and none before it does.
pub fn fault_order()
    ensures { TellsInOrder }
{}
