//! Which step comes next.
ghost use Rattle.std.specs.Prelude.{◌≡◌, if◌then◌else◌, false, [], None, IfSome, option_copied};
ghost use Rattle.std.specs.Option.{IfNone};
ghost use Rattle.std.specs.List.{list_any, range_with_len};
ghost use Rattle.mpi_law.specs.declared.setting.TheConstants.{THREADS};
ghost use Rattle.mpi_protocol.specs.Step.{is_enabled};
ghost use Rattle.rank_core.specs.Candidates.{candidates, counts, lesser, IsLeast};
ghost use Rattle.rank_core.specs.Next.{comes_before, is_above as is_above_option, place_of, place_before, ByKey, ByNumber, IsNext, NoneNext};

use crate::rank::RankState;
use mpi_base::{Act, Key};
use mpi_law::THREADS;

/// A kind of step that a rank may make by itself, whatever the scripts say.
#[derive(Clone, Copy, Debug, Drop, PartialEq, Eq)]
pub enum StepKind {
    /// A thread is answered; in the order of threads.
    Answer,
    /// A round is decided, or an exchange; in the order of keys.
    Settle,
    /// An offer is made; in the order of keys.
    Offer,
    /// A communicator is left; in the order of contexts.
    Leave,
    /// A communicator is given back; in the order of contexts.
    Back,
}

/// Whether a key comes before that of a step.
fn is_key_before(key: &Key, act: &Act) -> bool
    ensures { result ≡ place_before (ByKey key.now) (place_of act.now) }
{
    match act {
        Act::Offer { key: other } | Act::Settle { key: other } => key.is_before(other),
        Act::Call { .. }
        | Act::Answer { .. }
        | Act::Deliver { .. }
        | Act::Leave { .. }
        | Act::Back { .. } => false,
    }
}

/// Whether a thread or a context comes before that of a step.
fn is_number_before(number: u16, act: &Act) -> bool
    ensures { result ≡ place_before (ByNumber number) (place_of act.now) }
{
    match act {
        Act::Call { thread, .. } | Act::Answer { thread } => number < *thread as u16,
        Act::Deliver { from } => number < *from,
        Act::Leave { ctx } | Act::Back { ctx } => number < *ctx,
        Act::Offer { .. } | Act::Settle { .. } => false,
    }
}

/// Of two steps of one kind, whether the first comes first: by thread, by key, or by context.
fn is_before(first: &Act, second: &Act) -> bool
    ensures { result ≡ comes_before first.now second.now }
{
    match first {
        Act::Call { thread, .. } | Act::Answer { thread } => {
            is_number_before(*thread as u16, second)
        }
        Act::Deliver { from } => is_number_before(*from, second),
        Act::Offer { key } | Act::Settle { key } => is_key_before(key, second),
        Act::Leave { ctx } | Act::Back { ctx } => is_number_before(*ctx, second),
    }
}

/// Whether a step comes after one that may be there.
fn is_above(after: Option<&Act>, act: &Act) -> bool
    ensures { result ≡ is_above_option (option_copied after.entry) act.now }
{
    match after {
        Some(last) => is_before(last, act),
        None => true,
    }
}

/// The lesser of a step and one that may be there.
fn lesser_of(act: Act, least: Option<Act>) -> Option<Act>
    ensures { result ≡ lesser act least }
{
    match least {
        Some(known) => Some(if is_before(&act, &known) { act } else { known }),
        None => Some(act),
    }
}

impl<const W: usize> RankState<W> {
    /// Whether a step comes after one that may be there, and may be made.
    fn counts(&self, after: Option<&Act>, act: &Act) -> bool
        ensures { result ≡ counts self.now.state (option_copied after.entry) act.now }
    {
        is_above(after, act) && self.enabled(act)
    }

    /// The lesser of a step, where it counts, and one that may be there.
    fn keep_least(&self, least: Option<Act>, after: Option<&Act>, act: Act) -> Option<Act>
        ensures { result ≡ (if counts self.now.state (option_copied after.entry) act then lesser act least else least) }
    {
        if self.counts(after, &act) {
            lesser_of(act, least)
        } else {
            least
        }
    }

    /// The least answer that counts.
    fn least_answer(&self, after: Option<&Act>) -> Option<Act>
        ensures { IsLeast self.now.state StepKind.Answer (option_copied after.entry) (candidates self.now.state StepKind.Answer) result }
    {
        let mut least = None;
        for thread in 0..THREADS {
            least = self.keep_least(least, after, Act::Answer { thread });
        }
        least
    }

    /// The least settle that counts.
    fn least_settle(&self, after: Option<&Act>) -> Option<Act>
        ensures { IsLeast self.now.state StepKind.Settle (option_copied after.entry) (candidates self.now.state StepKind.Settle) result }
    {
        let mut least = None;
        for offer in self.agree.offers() {
            let key = offer.key.copy();
            least = self.keep_least(least, after, Act::Settle { key });
        }
        for share in self.agree.shares() {
            let key = share.key.copy();
            least = self.keep_least(least, after, Act::Settle { key });
        }
        least
    }

    /// The least offer that counts.
    fn least_offer(&self, after: Option<&Act>) -> Option<Act>
        ensures { IsLeast self.now.state StepKind.Offer (option_copied after.entry) (candidates self.now.state StepKind.Offer) result }
    {
        let mut least = None;
        for creation in self.agree.opened() {
            let key = creation.key.copy();
            least = self.keep_least(least, after, Act::Offer { key });
        }
        least
    }

    /// The least leave that counts.
    fn least_leave(&self, after: Option<&Act>) -> Option<Act>
        ensures { IsLeast self.now.state StepKind.Leave (option_copied after.entry) (candidates self.now.state StepKind.Leave) result }
    {
        let mut least = None;
        for row in self.comms.rows() {
            least = self.keep_least(least, after, Act::Leave { ctx: row.ctx });
        }
        least
    }

    /// The least give-back that counts.
    fn least_back(&self, after: Option<&Act>) -> Option<Act>
        ensures { IsLeast self.now.state StepKind.Back (option_copied after.entry) (candidates self.now.state StepKind.Back) result }
    {
        let mut least = None;
        for row in self.comms.rows() {
            least = self.keep_least(least, after, Act::Back { ctx: row.ctx });
        }
        least
    }

    /// The least step of a kind that counts.
    fn least_of(&self, kind: StepKind, after: Option<&Act>) -> Option<Act>
        ensures { IsLeast self.now.state kind (option_copied after.entry) (candidates self.now.state kind) result }
    {
        match kind {
            StepKind::Answer => self.least_answer(after),
            StepKind::Settle => self.least_settle(after),
            StepKind::Offer => self.least_offer(after),
            StepKind::Leave => self.least_leave(after),
            StepKind::Back => self.least_back(after),
        }
    }

    /// The first enabled step of a kind, in the order of threads, of keys or of contexts, that comes
    /// after `after`, or the first of all where `after` is None. A step of a key comes neither before
    /// nor after one of a thread or a context.
    pub fn next(&self, kind: StepKind, after: Option<&Act>) -> Option<Act>
        ensures found { IfSome result (λ a. IsNext self.now.state kind (option_copied after.entry) a) }
        ensures none { IfNone result (NoneNext self.now.state kind (option_copied after.entry)) }
    {
        self.least_of(kind, after)
    }
    /// Whether some thread may be answered.
    #[tactic(auto, unfolding(mpi_protocol::specs::Step::is_enabled))]
    fn has_answer(&self) -> bool
        ensures { result ≡ list_any (λ t. is_enabled self.now.state (Act.Answer t)) (range_with_len 0 THREADS) }
    {
        (0..THREADS).any(
            |thread| -> bool
                ensures { result ≡ is_enabled self.entry.now.state (Act.Answer thread) }
            { self.may_answer(thread) },
        )
    }

    /// Whether there is an offer or a share of some creation, without which nothing may be settled.
    fn has_gathered(&self) -> bool
        ensures { result ≡ false → candidates self.now.state StepKind.Settle ≡ [] }
    {
        !self.agree.offers().is_empty() || !self.agree.shares().is_empty()
    }

    /// Whether a creation is open, without which nothing may be offered.
    fn has_opened(&self) -> bool
        ensures { result ≡ false → candidates self.now.state StepKind.Offer ≡ [] }
    {
        !self.agree.opened().is_empty()
    }

    /// Whether some communicator may be left.
    #[tactic(auto, unfolding(mpi_protocol::specs::Step::is_enabled))]
    fn has_leave(&self) -> bool
        ensures { result ≡ list_any (λ m. is_enabled self.now.state (Act.Leave m.ctx)) self.now.state.comms.rows }
    {
        self.comms.rows().iter().any(
            |row| -> bool
                ensures { result ≡ is_enabled self.entry.now.state (Act.Leave row.now.ctx) }
            { self.may_leave(row.ctx) },
        )
    }

    /// Whether some communicator may be given back.
    #[tactic(auto, unfolding(mpi_protocol::specs::Step::is_enabled))]
    fn has_back(&self) -> bool
        ensures { result ≡ list_any (λ m. is_enabled self.now.state (Act.Back m.ctx)) self.now.state.comms.rows }
    {
        self.comms.rows().iter().any(
            |row| -> bool
                ensures { result ≡ is_enabled self.entry.now.state (Act.Back row.now.ctx) }
            { self.may_give_back(row.ctx) },
        )
    }

    /// Whether a step of a kind may be there: false only where none may be made. It copies no step, and
    /// so is quicker than [`RankState::next`].
    pub fn has_next(&self, kind: StepKind) -> bool
        ensures none { result ≡ false → NoneNext self.now.state kind None }
    {
        match kind {
            StepKind::Answer => self.has_answer(),
            StepKind::Settle => self.has_gathered(),
            StepKind::Offer => self.has_opened(),
            StepKind::Leave => self.has_leave(),
            StepKind::Back => self.has_back(),
        }
    }
}
