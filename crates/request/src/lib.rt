//! The command line of alcrs: its grammar, its help, and the request that its words make.
//!
//! ```
//! let line = command_line(alloc, words);
//! carry_out(alloc, &line, host, err).status
//! ```
//!
//! - `requests`: the commands with their values.
//! - `names`: the files and the identity that a request names.
//! - `usage`: why words are no request.
//! - `places`: the places that words tell.
//! - `grammar`: the commands, their arguments and their help, for clap.
//! - `help`: what the help of each command says of its lines, statuses and use.
//! - `matched`: the request of what clap matched.
//! - `line`: the request of a command line's words.
#![tactic(auto)]

mod grammar;
mod help;
mod line;
mod matched;
mod names;
mod places;
mod requests;
mod usage;

pub use line::command_line;
pub use places::{PlaceFault, place_range, place_ranges};
pub use requests::{
    CertifyRequest, CheckRequest, CommandLine, ConvertRequest, DecodeRequest, DropRequest,
    EncodeRequest, FollowRequest, JoinRequest, Output, Request, SalvageRequest, Sending,
    ShowRequest, Sizes, TwinRequest,
};
pub use usage::{PlacesRefusal, Usage};
