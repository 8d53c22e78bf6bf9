//! What a call looks at.
ghost use Rattle.std.specs.Prelude.{◌≡◌, ◌<◌};
ghost use Rattle.comm_law.specs.Comms.{comm_at};
ghost use Rattle.mpi_law.specs.Local.{effect_of};
ghost use Rattle.mpi_protocol.specs.Calls.{around_of};
ghost use Rattle.call_plan.specs.Targets.{BindsFree};
ghost use Rattle.call_plan.specs.Receivers.{SendsWithin};

use crate::tables::Tables;
use bind_tab::Objects;
use call_plan::Call;
use comm_tab::CommTab;
use mpi_base::Op;
use mpi_law::{Effect, Setting};
use rank_rows::Threads;

/// What a call looks at: the caller's rank and setting, its names and sessions, its communicators and
/// its threads.
#[derive(Drop)]
pub struct Surroundings<'a> {
    /// The caller's rank in the world, which is one of those of the setting's process sets.
    pub rank: u16,
    /// The setting.
    pub setting: &'a Setting,
    /// The names and sessions of the rank.
    pub objects: &'a Objects,
    /// The communicators of the rank.
    pub comms: &'a CommTab,
    /// The threads of the rank, each with the creation that it waits for.
    pub threads: &'a Threads,
}

impl Surroundings<'_> {
    /// What an operation of the caller does, or the refusal that it replies. Nothing changes yet. The
    /// caller's rank is one of those of the process sets. The name that the effect binds is neither
    /// bound nor reserved, and the receiver of a message is a rank of the communicator. The order of
    /// refusals is this project's own.
    pub fn effect(&self, op: &Op) -> Effect<u16>
        requires { self.now.rank < self.now.setting.now.psets.ranks }
        ensures effect { result ≡ effect_of self.now.setting.now self.now.rank (around_of self.now.comms.now.comms self.now.threads.now) self.now.objects.now.local op.now }
        ensures free { BindsFree self.now.objects.now.local.names result }
        ensures receiver { SendsWithin (λ c. (comm_at self.now.comms.now.comms c).members) result }
    {
        let tables = Tables {
            comms: self.comms,
            threads: self.threads,
        };
        let call = Call {
            rank: self.rank,
            setting: self.setting,
            objects: self.objects,
            around: &tables,
        };
        call.effect(op)
    }
}
