//! Which steps a rank may make.
ghost use Rattle.std.specs.Prelude.{◌≡◌, ◌<◌, ◌&&◌, nat_lt};
ghost use Rattle.agree_law.specs.Moves.{may_settle as may_settle_at};
ghost use Rattle.agree_law.specs.Part.{stage_of};
ghost use Rattle.comm_law.specs.Comms.{is_freed_at};
ghost use Rattle.mpi_law.specs.declared.setting.TheConstants.{THREADS};
ghost use Rattle.mpi_protocol.specs.Answers.{is_answerable as is_answerable_at};
ghost use Rattle.mpi_protocol.specs.Order.{is_offered as is_offered_at};
ghost use Rattle.mpi_protocol.specs.Rank.{thread_at, is_idle as is_idle_at};
ghost use Rattle.mpi_protocol.specs.Step.{is_enabled, may_leave as may_leave_at, may_give_back as may_give_back_at};

use crate::rank::RankState;
use agree_law::Stage;
use bind_tab::Bound;
use comm_law::CommStage;
use mpi_base::{Act, Key};
use mpi_protocol::Waits;

impl<const W: usize> RankState<W> {
    /// Whether what a thread waits for is there.
    fn is_answerable(&self, waits: &Waits) -> bool
        ensures { result ≡ is_answerable_at self.now.state waits.now }
    {
        match waits {
            Waits::Nothing => false,
            Waits::Creation { key, .. } => matches!(self.agree.stage(key), Some(Stage::Done(_))),
            Waits::Uncoloured { .. } => true,
            Waits::Freeing { serial } => !self.comms.has_serial(*serial),
            Waits::Ending { session } => !self.comms.has_session(*session),
            Waits::Receiving { number } => *number == 0 || self.receives.has_taken(*number),
            Waits::Awaiting { name } => match self.objects.find(name) {
                None | Some(Bound::Reserved) => false,
                Some(_) => true,
            },
        }
    }

    /// Whether a thread may be answered.
    pub(crate) fn may_answer(&self, thread: u8) -> bool
        ensures { result ≡ (nat_lt thread THREADS && is_answerable_at self.now.state (thread_at self.now.state thread).waits) }
    {
        match self.threads.get(thread) {
            Some(row) => self.is_answerable(&row.waits),
            None => false,
        }
    }

    /// Whether a communicator is freed, and not left yet.
    fn is_freed(&self, ctx: u16) -> bool
        ensures { result ≡ is_freed_at self.now.state.comms ctx }
    {
        match self.comms.find(ctx) {
            Some(row) => matches!(row.stage, CommStage::Freed),
            None => false,
        }
    }

    /// Whether the rank may leave a communicator.
    #[tactic(auto, unfolding(mpi_protocol::specs::Rank::has_open_under))]
    pub(crate) fn may_leave(&self, ctx: u16) -> bool
        ensures { result ≡ may_leave_at self.now.state ctx }
    {
        self.is_freed(ctx) && !self.threads.has_open_under(ctx)
    }

    /// Whether the rank, as first member, has all that it needs to settle.
    #[tactic(auto, unfolding(agree_law::specs::Moves::may_settle))]
    fn may_settle(&self, key: &Key) -> bool
        ensures { result ≡ may_settle_at self.now.state.rank self.now.state.agree key.now }
    {
        self.agree.may_settle(key) || self.agree.may_settle_share(key)
    }

    /// Whether the rank may give a communicator back.
    pub(crate) fn may_give_back(&self, ctx: u16) -> bool
        ensures { result ≡ may_give_back_at self.now.state ctx }
    {
        self.comms.all_marked(ctx) && self.matches.posted(ctx) == 0 && self.agree.owner().is_none()
    }

    /// Whether a thread waits for nothing. False for a thread of 8 or more.
    pub fn is_idle(&self, thread: u8) -> bool
        ensures { result ≡ (nat_lt thread THREADS && is_idle_at (thread_at self.now.state thread).waits) }
    {
        self.threads.is_idle(thread)
    }

    /// Whether the offer of a creation is due.
    #[tactic(auto, unfolding(mpi_protocol::specs::Step::is_enabled))]
    pub fn may_offer(&self, key: &Key) -> bool
        ensures { result ≡ is_enabled self.now.state (Act.Offer key.now) }
    {
        self.agree.may_offer(key)
    }

    /// Whether a step may be made. A delivery from another rank counts as one that may: the link decides.
    #[tactic(auto, unfolding(mpi_protocol::specs::Step::is_enabled))]
    pub fn enabled(&self, act: &Act) -> bool
        ensures { result ≡ is_enabled self.now.state act.now }
    {
        match act {
            Act::Call { thread, .. } => self.is_idle(*thread),
            Act::Answer { thread } => self.may_answer(*thread),
            Act::Deliver { from } => *from != self.agree.rank(),
            Act::Offer { key } => self.may_offer(key),
            Act::Settle { key } => self.may_settle(key),
            Act::Leave { ctx } => self.may_leave(*ctx),
            Act::Back { ctx } => self.may_give_back(*ctx),
        }
    }

    /// Whether the rank has made its offer of a creation's round, and has no verdict on it.
    pub fn is_offered(&self, key: &Key) -> bool
        ensures { result ≡ is_offered_at (stage_of self.now.state.agree.opened key.now) }
    {
        matches!(self.agree.stage(key), Some(Stage::Offered { .. }))
    }
}
