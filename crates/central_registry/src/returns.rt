//! Communicators given back.
ghost use Rattle.std.specs.List.{list_all, list_any};
ghost use Rattle.mpi_base.specs.MemberLists.{has_rank};
ghost use Rattle.mpi_law.specs.Registry.State.{comm_at};
ghost use Rattle.mpi_law.specs.Registry.Creations.{has_open_under};
ghost use Rattle.std.specs.Prelude.{Some, ◌≡◌, IfOk, OnErr};
ghost use Rattle.central_law.specs.Rest.{AtRest};
ghost use Rattle.mpi_law.specs.Registry.Tests.{can_return};
ghost use Rattle.central_law.specs.Fits.{BackFits};
ghost use Rattle.central_law.specs.After.{returned_state};
ghost use Rattle.central_registry.specs.Moves.{Moves};

use crate::tables::Tables;
use mpi_base::OutOfMemory;
use mpi_law::Setting;

impl Tables {
    /// Whether a creation under a communicator is open at some of its members.
    pub(crate) fn has_open_anywhere(&self, comm: usize) -> bool
        ensures { result ≡ list_any (has_open_under self.now.state comm) (comm_at self.now.state comm).members }
    {
        let _ = self.ranks.count();
        let members = self.members(comm);
        for place in 0..members.len() {
            if let Some(member) = members.get(place) {
                if self.has_open_under(comm, member) {
                    return true;
                }
            }
        }
        false
    }

    /// Whether all members of a communicator have freed it.
    pub(crate) fn all_freed(&self, comm: usize) -> bool
        ensures { result ≡ list_all (has_rank (comm_at self.now.state comm).freed) (comm_at self.now.state comm).members }
    {
        !self.has_comm(comm) || self.comms.all_freed(comm)
    }

    /// Whether a rank may give a communicator back and drop so many messages then.
    fn may_return(&self, rank: u16, comm: usize, dropped: u64) -> bool
        ensures { result ≡ can_return self.now.state rank dropped (Some comm) }
    {
        self.all_freed(comm)
            && !self.has_open_anywhere(comm)
            && !self.mail.has_waiting(comm, rank)
            && self.mail.left_on(comm, rank) == dropped
    }

    /// What a give-back does, by the context of the communicator at the rank, where its entry says how many
    /// messages are dropped.
    pub(crate) fn give_back(
        &mut self,
        setting: &Setting,
        rank: u16,
        ctx: u16,
        dropped: Option<u64>,
    ) -> Result<bool, OutOfMemory>
        requires { AtRest setting.now self.old.state }
        ensures ok { IfOk result (λ moved. Moves (BackFits self.old.state rank ctx dropped) self.old.state (returned_state self.old.state rank ctx dropped) moved self.new.state) }
        ensures err { OnErr result (self.new.state ≡ self.old.state) }
    {
        let Some(dropped) = dropped else {
            return Ok(true);
        };
        let Some(place) = self.comms.place_of(rank, ctx) else {
            return Ok(false);
        };
        if !self.may_return(rank, place, dropped) {
            return Ok(false);
        }
        self.comms.give_back(place, rank)?;
        self.mail.drop_left(place, rank);
        Ok(true)
    }
}
