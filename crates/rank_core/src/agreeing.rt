//! Offers and settles.
ghost use Rattle.std.specs.Prelude.{◌≡◌, ◌≤◌, ◌<◌, ◌+◌, ◌-◌, ◌^◌, if◌then◌else◌, true, false, Some, None, [], length, map};
ghost use Rattle.mpi_base.specs.declared.entries.Said.TheVariants as said;
ghost use Rattle.agree_law.specs.Kinds.{is_share};
ghost use Rattle.mpi_protocol.specs.Agreeing.{settles_as};
ghost use Rattle.mpi_protocol.specs.Step.{is_enabled};
ghost use Rattle.rank_core.specs.Packets.{sent_by};
ghost use Rattle.rank_core.specs.Verdicts.{comms_after};
ghost use Rattle.rank_core.specs.Held.{CountsAreLow, IsReady, Makes, MOST_SENT};

use crate::entries::Told;
use crate::outbox::Outbox;
use crate::packets::said_of;
use crate::rank::RankState;
use agree_law::Verdict;
use comm_tab::CommTab;
use mpi_base::{Act, Entry, Key, Kind, Said};
use rank_rows::Threads;

/// What an offer says in the journal, by whether it owns the mask.
fn said_of_offer(own: bool) -> Said
    ensures { result ≡ (if own then said.Own else said.Zero) }
{
    if own { Said::Own } else { Said::Zero }
}

/// A verdict with a context: the communicator is there from now on, in the session of its creation.
pub(crate) fn take_context(comms: &mut CommTab, threads: &Threads, key: &Key, verdict: Verdict)
    requires room { 1 ≤ comms.old.spare }
    requires count { comms.old.comms.added < 2 ^ 64 - 1 }
    ensures comms { comms.new.comms ≡ comms_after comms.old.comms threads.now key.now verdict }
    ensures rank { comms.new.rank ≡ comms.old.rank }
    ensures spare { comms.old.spare ≤ comms.new.spare + 1 }
{
    if let Verdict::Context(ctx) = verdict {
        comms.add(ctx, key.members.copy(), threads.session_of(key));
    }
}

impl<const W: usize> RankState<W> {
    /// The rank makes the offer that is due for a creation.
    #[tactic(auto, unfolding(mpi_protocol::specs::Step::is_enabled, mpi_protocol::specs::Step::step, mpi_protocol::specs::Agreeing::offers))]
    pub fn offer(&mut self, key: Key, out: &mut Outbox<W>) -> Entry
        requires enabled { is_enabled self.old.state (Act.Offer key) ≡ true }
        requires room { 1 ≤ self.old.spare }
        requires ready { IsReady out.old }
        ensures { Makes self.old (Act.Offer key) None self.new result out.new }
    {
        let own = self.agree.offer(&key, &mut out.agreed);
        self.entry(
            Act::Offer { key },
            Told {
                said: Some(said_of_offer(own)),
                ..Told::nothing()
            },
        )
    }

    /// The first member decides a round.
    fn settle_offers(&mut self, key: &Key, out: &mut Outbox<W>) -> Said
        requires enabled { is_enabled self.old.state (Act.Settle key.now) ≡ true }
        requires offers { is_share key.now.kind ≡ false }
        requires room { 1 ≤ self.old.spare }
        requires counts { CountsAreLow self.old }
        requires ready { IsReady out.old }
        ensures state { self.new.state ≡ (settles_as self.old.state key.now false).state }
        ensures said { Some result ≡ (settles_as self.old.state key.now false).said }
        ensures sent { sent_by self.old.state.setting.contexts out.new ≡ (settles_as self.old.state key.now false).sent }
        ensures few { length (sent_by self.old.state.setting.contexts out.new) ≤ MOST_SENT }
        ensures boxed { self.new.boxed ≡ self.old.boxed }
        ensures spare { self.old.spare ≤ self.new.spare + 1 }
    {
        let verdict = self.agree.settle(key, &mut out.agreed);
        take_context(&mut self.comms, &self.threads, key, verdict);
        said_of(verdict)
    }

    /// The first member settles an exchange of shares.
    fn settle_shares(&mut self, key: &Key, out: &mut Outbox<W>) -> Said
        requires enabled { is_enabled self.old.state (Act.Settle key.now) ≡ true }
        requires shares { is_share key.now.kind ≡ true }
        requires room { 1 ≤ self.old.spare }
        requires ready { IsReady out.old }
        ensures state { self.new.state ≡ (settles_as self.old.state key.now true).state }
        ensures said { Some result ≡ (settles_as self.old.state key.now true).said }
        ensures sent { sent_by self.old.state.setting.contexts out.new ≡ (settles_as self.old.state key.now true).sent }
        ensures few { length (sent_by self.old.state.setting.contexts out.new) ≤ MOST_SENT }
        ensures boxed { self.new.boxed ≡ self.old.boxed }
        ensures spare { self.old.spare ≤ self.new.spare + 1 }
    {
        let next = self.agree.settle_share(key, &mut out.agreed);
        self.threads.go_on(key, next);
        Said::Shared
    }

    /// The first member decides a round, or settles an exchange of shares.
    fn settle_either(&mut self, key: &Key, out: &mut Outbox<W>) -> Said
        requires enabled { is_enabled self.old.state (Act.Settle key.now) ≡ true }
        requires room { 1 ≤ self.old.spare }
        requires counts { CountsAreLow self.old }
        requires ready { IsReady out.old }
        ensures state { self.new.state ≡ (settles_as self.old.state key.now (is_share key.now.kind)).state }
        ensures said { Some result ≡ (settles_as self.old.state key.now (is_share key.now.kind)).said }
        ensures sent { sent_by self.old.state.setting.contexts out.new ≡ (settles_as self.old.state key.now (is_share key.now.kind)).sent }
        ensures few { length (sent_by self.old.state.setting.contexts out.new) ≤ MOST_SENT }
        ensures boxed { self.new.boxed ≡ self.old.boxed }
        ensures spare { self.old.spare ≤ self.new.spare + 1 }
    {
        match key.kind {
            Kind::Share => self.settle_shares(key, out),
            Kind::From | Kind::Group | Kind::Dup | Kind::Split => self.settle_offers(key, out),
        }
    }

    /// The first member of a creation, who has what it needs, decides its round or settles its exchange
    /// of shares.
    pub fn settle(&mut self, key: Key, out: &mut Outbox<W>) -> Entry
        requires enabled { is_enabled self.old.state (Act.Settle key) ≡ true }
        requires room { 1 ≤ self.old.spare }
        requires counts { CountsAreLow self.old }
        requires ready { IsReady out.old }
        ensures { Makes self.old (Act.Settle key) None self.new result out.new }
    {
        let said = self.settle_either(&key, out);
        self.entry(
            Act::Settle { key },
            Told {
                said: Some(said),
                ..Told::nothing()
            },
        )
    }
}
