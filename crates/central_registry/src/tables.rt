//! What a registry keeps.
ghost use Rattle.std.specs.Prelude.{◌≡◌, ℕ, nat_lt, IfOk, length};
ghost use Rattle.mpi_law.specs.declared.setting.Setting.{Setting};
ghost use Rattle.mpi_law.specs.Registry.State.{registry_opening, comm_at};

use central_comms::Comms;
use central_creations::Creations;
use central_mail::Mail;
use central_ranks::Ranks;
use mpi_base::{Members, OutOfMemory};
use std::alloc::Global;
use std::marker::Model;

/// Communicators, creations, messages and receives, and the ranks with their names and threads.
#[derive(Drop)]
pub(crate) struct Tables {
    pub(crate) comms: Comms,
    pub(crate) creations: Creations,
    pub(crate) mail: Mail,
    pub(crate) ranks: Ranks,
}

impl Model for Tables {
    ghost use Rattle.central_registry.specs.Held.{TablesHeld};

    ghost Value = { TablesHeld };

    ghost view = { λ t. record {
      state = record { comms = t.comms; creations = t.creations; receives = t.mail.receives; messages = t.mail.messages; ranks = t.ranks.parts };
      spares = t.ranks.spares;
    } };
}

impl Tables {
    /// The tables of so many ranks, with nothing called.
    pub(crate) fn start(alloc: Global, ranks: u16) -> Result<Tables, OutOfMemory>
        ensures { IfOk result (λ t. (s : Setting) → s.ranks ≡ ranks → t.state ≡ registry_opening s) }
    {
        Ok(Tables {
            comms: Comms::none(alloc),
            creations: Creations::none(alloc),
            mail: Mail::none(alloc),
            ranks: Ranks::start(alloc, ranks)?,
        })
    }

    /// Whether there is a communicator at a place.
    pub(crate) fn has_comm(&self, comm: usize) -> bool
        ensures { result ≡ nat_lt comm (length self.now.state.comms) }
    {
        comm < self.comms.len()
    }

    /// The members of a communicator; none where there is none at the place.
    pub(crate) fn members(&self, comm: usize) -> Members
        ensures { result ≡ (comm_at self.now.state comm).members }
    {
        if self.has_comm(comm) {
            self.comms.members(comm).copy()
        } else {
            Members::none()
        }
    }
}
