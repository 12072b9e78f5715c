//! Sessions joined into one.
ghost use Rattle.std.specs.Prelude.{◌≡◌, ◌++◌, OnOk, IfOk, IfErr, MatchResult};
ghost use Rattle.session.specs.Joined.{joined, round as round_of};
ghost use Rattle.session.specs.Turns.{longest as longest_of};

use crate::frame::FrameFault;
use crate::selection::put;
use crate::session::Session;
use std::alloc::Global;

// How many datagrams the longest session has.
fn longest(sessions: &[Session]) -> usize
    ensures { result ≡ longest_of sessions.now }
{
    let mut most = 0;
    for session in sessions {
        most = most.max(session.len());
    }
    most
}

// Puts copies of a session's datagrams last.
fn push_all(joined: &mut Session, session: &Session) -> Result<(), FrameFault>
    ensures { MatchResult result (λ _. joined.new ≡ joined.old ++ session.now)
        (λ e. e ≡ FrameFault.NoMemory) }
{
    for place in 0..session.len() {
        put(joined, session.get(place))?;
    }
    Ok(())
}

// Puts a copy of the datagram at this place of each session that has one last.
fn push_round(joined: &mut Session, sessions: &[Session], place: usize) -> Result<(), FrameFault>
    ensures ok { OnOk result (joined.new ≡ joined.old ++ round_of sessions.now place) }
    ensures fault { IfErr result (λ e. e ≡ FrameFault.NoMemory) }
{
    for session in sessions {
        if place < session.len() {
            put(joined, session.get(place))?;
        }
    }
    Ok(())
}

impl Session {
    /// All datagrams of the first of these sessions, then all of the second, and so on; with
    /// `turns` one of each in turn, in the order of the sessions, those that have ended being
    /// passed over. Of no sessions it is the empty one. The only fault is `NoMemory`.
    pub fn join(alloc: Global, sessions: &[Session], turns: bool) -> Result<Session, FrameFault>
        ensures joined { IfOk result (λ s. s ≡ joined turns sessions.now) }
        ensures fault { IfErr result (λ e. e ≡ FrameFault.NoMemory) }
    {
        let mut joined = Session::new(alloc);
        if turns {
            for place in 0..longest(sessions) {
                push_round(&mut joined, sessions, place)?;
            }
        } else {
            for session in sessions {
                push_all(&mut joined, session)?;
            }
        }
        Ok(joined)
    }
}
