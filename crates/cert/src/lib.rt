//! The check of a session (FEC Encoding ID 5, RFC 5510), an object and a certificate.
//!
//! ```
//! match check(alloc, &session, OBJECT, &certificate, IDENTITY)? {
//!     Verdict::Yes(report) => println!(rt; "any {} datagrams may be missed", report.margin)?,
//!     Verdict::No(reason) => println!(rt; "no {reason:?}")?,
//! }
//! ```
//!
//! `verdict` has what a check answers, `fault` why it wasn't done, `specs/Verdict` which answer
//! is right, `specs/Report` what a yes tells.
//!
//! A check asks for one identity's packets, and is a [`Checker`] that is fed one datagram at a time
//! (`checker`, `specs/Feeding`), or all that a reader gives. It also tells what a picture of a yes
//! shows (`specs/Surveying`). [`check`] feeds it a session (`checking`), and [`check_from`] what a
//! reader gives (`from_reader`, `specs/FromReader`). The certificate's FTI is known from the start,
//! so a packet is judged whether a carrier came before it or not; that none came is told in the
//! end.
//!
//! What came is counted and grouped by a `tally`, whatever is asked of the symbols
//! (`specs/Tallying`). The checker compares the symbols that `certified_symbols` makes of the
//! certificate with the object (`source`). It compares a datagram's symbol with the object's where
//! it is a source symbol, else with the certified one (`datagrams`). A datagram's place goes into
//! its block's group for `losses`, and that of a carrier behind the other carriers. `twins` makes
//! the object that can't be told from the true one where a block is short (`specs/Twins`), or
//! writes it a piece at a time (`specs/TwinBytes`). `laws` says of the definitions that there is
//! one verdict, and which reason and which column it has.
//!
//! Nothing is solved here: a check evaluates polynomials and compares bytes. What a yes promises of
//! every selection is `reception`'s `specs/Headline`, and of every loss `specs/Bearing`; the
//! theorems behind it stand in `proofs/Promise`, `Twinning`, `Undecided` and `Bearing`.
#![tactic(auto)]

mod checker;
mod checking;
mod datagrams;
mod fault;
mod from_reader;
mod laws;
mod source;
mod tally;
mod twins;
mod verdict;

pub use checker::Checker;
pub use checking::check;
pub use fault::CheckFault;
pub use from_reader::check_from;
pub use laws::{first_column, first_reason, one_verdict, own_name_changes_nothing, reason_order};
pub use losses::Run;
pub use tally::Tally;
pub use twins::{TwinFault, twin, write_twin};
pub use verdict::{Reason, Report, Survey, Verdict};
