//! The tables of a rank, for what a call looks at.
ghost use Rattle.mpi_protocol.specs.Calls.{around_of};

use crate::keys::key_of;
use call_plan::Around;
use comm_tab::CommTab;
use mpi_base::Members;
use mpi_law::Origin;
use rank_rows::Threads;

/// The communicators and the threads of a rank. A communicator is named by its context there.
#[derive(Drop)]
pub(crate) struct Tables<'a> {
    pub(crate) comms: &'a CommTab,
    pub(crate) threads: &'a Threads,
}

impl Around for Tables<'_> {
    ghost seen = { λ s. around_of s.comms.now.comms s.threads.now };

    fn members(&self, comm: u16) -> Members {
        match self.comms.find(comm) {
            Some(row) => row.members.copy(),
            None => Members::none(),
        }
    }

    fn size(&self, comm: u16) -> u16 {
        match self.comms.find(comm) {
            Some(row) => row.members.len(),
            None => 0,
        }
    }

    fn is_busy(&self, origin: &Origin<u16>) -> bool {
        self.threads.has_open(&key_of(self.comms, origin))
    }

    fn is_engaged(&self, session: u64) -> bool {
        self.threads.has_open_of(session)
    }
}
