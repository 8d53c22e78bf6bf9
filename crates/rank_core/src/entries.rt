//! The entries of steps.
ghost use Rattle.std.specs.Prelude.{◌≡◌, option_map, Some, None};
ghost use Rattle.mpi_protocol.specs.Packets.{brief_of};

use crate::rank::RankState;
use mpi_base::{Act, Brief, Choice, Entry, Matched, Reply, Said};

/// What an entry says besides its choice.
#[derive(Drop)]
pub(crate) struct Told {
    /// The packet that was delivered.
    pub(crate) brief: Option<Brief>,
    /// What an offer or a settle said.
    pub(crate) said: Option<Said>,
    /// The match that was made.
    pub(crate) matched: Option<Matched>,
    /// How many messages were dropped.
    pub(crate) dropped: Option<u64>,
    /// The reply.
    pub(crate) reply: Option<Reply>,
}

impl Told {
    /// Nothing.
    pub(crate) fn nothing() -> Told
        ensures { result ≡ record { brief = None; said = None; matched = None; dropped = None; reply = None } }
    {
        Told {
            brief: None,
            said: None,
            matched: None,
            dropped: None,
            reply: None,
        }
    }
}

impl<const W: usize> RankState<W> {
    /// The entry of a step of this rank.
    pub(crate) fn entry(&self, act: Act, told: Told) -> Entry
        ensures { result ≡ record { choice = record { rank = self.now.state.rank; act = act }; brief = told.brief; said = told.said; matched = told.matched; dropped = told.dropped; reply = told.reply } }
    {
        Entry {
            choice: Choice {
                rank: self.agree.rank(),
                act,
            },
            brief: told.brief,
            said: told.said,
            matched: told.matched,
            dropped: told.dropped,
            reply: told.reply,
        }
    }
}
