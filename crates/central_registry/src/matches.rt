//! Matches.
ghost use Rattle.std.specs.Prelude.{◌≡◌, true};
ghost use Rattle.central_law.specs.Tests.{match_test};
ghost use Rattle.central_law.specs.Fits.{MatchFits};
ghost use Rattle.central_law.specs.After.{matched_state};
ghost use Rattle.central_registry.specs.Moves.{Moves};

use crate::tables::Tables;
use mpi_base::Matched;

impl Tables {
    /// Whether a receive of a rank may take a message, where an entry says that it does.
    pub(crate) fn may_match(&self, rank: u16, matched: Option<Matched>) -> bool
        ensures { result ≡ match_test self.now.state rank matched }
    {
        match matched {
            Some(m) => self
                .mail
                .can_take(&self.comms, rank, m.receive, m.from, m.number),
            None => true,
        }
    }

    /// A receive of a rank takes a message, where an entry says that it does. It may.
    pub(crate) fn take(&mut self, rank: u16, matched: Option<Matched>)
        requires { match_test self.old.state rank matched ≡ true }
        ensures state { self.new.state ≡ matched_state self.old.state rank matched }
        ensures spares { self.new.spares ≡ self.old.spares }
    {
        if let Some(m) = matched {
            self.mail.take(rank, m.receive, m.from, m.number);
        }
    }

    /// What a delivery does: the match that its entry has.
    pub(crate) fn deliver(&mut self, rank: u16, matched: Option<Matched>) -> bool
        ensures { Moves (MatchFits self.old.state rank matched) self.old.state (matched_state self.old.state rank matched) result self.new.state }
    {
        if !self.may_match(rank, matched) {
            return false;
        }
        self.take(rank, matched);
        true
    }
}
