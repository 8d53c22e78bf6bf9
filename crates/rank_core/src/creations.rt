//! Calls of creations.
ghost use Rattle.std.specs.Prelude.{◌≡◌, ◌≤◌, ◌<◌, ◌+◌, ◌-◌, ◌^◌, All, None, length};
ghost use Rattle.local_law.specs.Names.{bound_of};
ghost use Rattle.mpi_law.specs.declared.effects.Effect.{Effect as AnyEffect};
ghost use Rattle.mpi_law.specs.declared.setting.TheConstants.{THREADS};
ghost use Rattle.agree_core.specs.Held.{Makes as AgreeMakes};
ghost use Rattle.and_reduce.specs.Rooms.{room_of};
ghost use Rattle.mpi_protocol.specs.Calls.{called, counted};
ghost use Rattle.rank_core.specs.Openings.{opening};
ghost use Rattle.rank_core.specs.Packets.{sent_by};
ghost use Rattle.rank_core.specs.Held.{CountsAreLow, IsReady, MOST_SENT};

use crate::outbox::Outbox;
use crate::rank::RankState;
use agree_core::Agreements;
use and_reduce::Sent as AgreeSent;
use comm_tab::CommTab;
use mpi_base::Key;
use mpi_law::{Asked, Origin};
use mpi_protocol::Waits;
use rank_plan::key_of;

/// A creation with this key is called. A split begins with the exchange of its shares.
fn begin<const W: usize>(
    agree: &mut Agreements<W>,
    comms: &mut CommTab,
    key: &Key,
    origin: &Origin<u16>,
    out: &mut Vec<AgreeSent<W>>,
)
    requires room { 1 ≤ agree.old.spare }
    requires out { 1 ≤ room_of out.old }
    requires counts { All (λ m. m.calls < 2 ^ 64 - 1) comms.old.comms.rows }
    ensures step { AgreeMakes (opening agree.old.rank agree.old.top agree.old.part key.now origin.now) agree.old agree.new out.old.items out.new.items }
    ensures few { length out.new.items ≤ length out.old.items + 1 }
    ensures spare { agree.old.spare ≤ agree.new.spare + 1 }
    ensures comms { comms.new.comms ≡ counted comms.old.comms origin.now }
    ensures rank { comms.new.rank ≡ comms.old.rank }
    ensures places { comms.new.spare ≡ comms.old.spare }
{
    match origin {
        Origin::Grouped { .. } | Origin::GroupedOn { .. } => agree.open(key, out),
        Origin::Duplicated { comm } => {
            agree.open(key, out);
            comms.count_call(*comm);
        }
        Origin::Divided { comm, share } => {
            agree.begin_share(key, *share, out);
            comms.count_call(*comm);
        }
    }
}

impl<const W: usize> RankState<W> {
    /// A thread joins a creation, and waits for it.
    pub(crate) fn join(&mut self, thread: u8, asked: Asked<u16>, out: &mut Outbox<W>)
        requires thread { thread < THREADS }
        requires room { 1 ≤ self.old.spare }
        requires ready { IsReady out.old }
        requires counts { CountsAreLow self.old }
        requires free { bound_of self.old.state.local.names asked.target ≡ None }
        ensures state { self.new.state ≡ (called self.old.state thread (AnyEffect.Joins asked)).state }
        ensures sent { sent_by self.old.state.setting.contexts out.new ≡ (called self.old.state thread (AnyEffect.Joins asked)).sent }
        ensures few { length (sent_by self.old.state.setting.contexts out.new) ≤ MOST_SENT }
        ensures boxed { self.new.boxed ≡ self.old.boxed }
        ensures spare { self.old.spare ≤ self.new.spare + 1 }
    {
        let key = key_of(&self.comms, &asked.origin);
        begin(
            &mut self.agree,
            &mut self.comms,
            &key,
            &asked.origin,
            &mut out.agreed,
        );
        self.objects.hold(asked.target.copy());
        self.threads.call(
            thread,
            Waits::Creation {
                key,
                target: asked.target,
                session: asked.session,
            },
        );
    }
}
