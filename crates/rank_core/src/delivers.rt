//! Deliveries.
ghost use Rattle.std.specs.Prelude.{◌≡◌, ◌≤◌, ◌<◌, ◌+◌, ◌-◌, ◌^◌, true, Some, [], length};
ghost use Rattle.agree_law.specs.Packets as agree;
ghost use Rattle.and_reduce.specs.Fronts.{front};
ghost use Rattle.and_reduce.specs.Rows as agree_rows;
ghost use Rattle.mpi_protocol.specs.Packets as seen;
ghost use Rattle.mpi_protocol.specs.Delivers.{is_context as is_context_of, delivers};
ghost use Rattle.rank_core.specs.Packets.{packet_of, sent_by};
ghost use Rattle.rank_core.specs.Held.{CountsAreLow, IsReady, Makes, MOST_SENT};

use crate::agreeing::take_context;
use crate::entries::Told;
use crate::outbox::Outbox;
use crate::packets::Packet;
use crate::rank::RankState;
use agree_law::Verdict;
use and_reduce::{Packet as AgreePacket, ShareList};
use ctx_mask::Mask;
use mpi_base::{Act, Entry, Key, Matched, Msg, Shared1};

impl<const W: usize> RankState<W> {
    /// Whether a context is one of the setting's.
    fn is_context(&self, ctx: u16) -> bool
        ensures { result ≡ is_context_of self.now.state ctx }
    {
        1 <= ctx && ctx <= self.setting.contexts
    }

    /// An offer comes. One that the rank does not take changes nothing; so for each packet of the
    /// agreement.
    fn take_up(
        &mut self,
        from: u16,
        key: &Key,
        round: u64,
        own: bool,
        mask: &Mask<W>,
        out: &mut Outbox<W>,
    )
        requires room { 1 ≤ self.old.spare }
        requires counts { CountsAreLow self.old }
        requires ready { IsReady out.old }
        ensures state { self.new.state ≡ (delivers self.old.state from (Some (seen.Agreeing (agree.Up key.now round own (front self.old.state.setting.contexts mask.now))))).state }
        ensures sent { sent_by self.old.state.setting.contexts out.new ≡ (delivers self.old.state from (Some (seen.Agreeing (agree.Up key.now round own (front self.old.state.setting.contexts mask.now))))).sent }
        ensures few { length (sent_by self.old.state.setting.contexts out.new) ≤ MOST_SENT }
        ensures boxed { self.new.boxed ≡ self.old.boxed }
        ensures spare { self.old.spare ≤ self.new.spare + 1 }
    {
        if self.agree.may_take_offer(from, key, round) {
            self.agree
                .take_offer(from, key, round, own, mask, &mut out.agreed);
        }
    }

    /// A verdict comes.
    fn take_down(&mut self, from: u16, key: &Key, round: u64, verdict: Verdict, out: &mut Outbox<W>)
        requires room { 1 ≤ self.old.spare }
        requires counts { CountsAreLow self.old }
        requires ready { IsReady out.old }
        ensures state { self.new.state ≡ (delivers self.old.state from (Some (seen.Agreeing (agree.Down key.now round verdict)))).state }
        ensures sent { sent_by self.old.state.setting.contexts out.new ≡ (delivers self.old.state from (Some (seen.Agreeing (agree.Down key.now round verdict)))).sent }
        ensures few { length (sent_by self.old.state.setting.contexts out.new) ≤ MOST_SENT }
        ensures boxed { self.new.boxed ≡ self.old.boxed }
        ensures spare { self.old.spare ≤ self.new.spare + 1 }
    {
        if self.agree.may_take_verdict(from, key, round, verdict) {
            self.agree
                .take_verdict(from, key, round, verdict, &mut out.agreed);
            take_context(&mut self.comms, &self.threads, key, verdict);
        }
    }

    /// A share comes.
    fn take_share(&mut self, from: u16, key: &Key, share: Shared1)
        requires room { 1 ≤ self.old.spare }
        ensures state { self.new.state ≡ (delivers self.old.state from (Some (seen.Agreeing (agree.Share key.now share)))).state }
        ensures sent { [] ≡ (delivers self.old.state from (Some (seen.Agreeing (agree.Share key.now share)))).sent }
        ensures boxed { self.new.boxed ≡ self.old.boxed }
        ensures spare { self.old.spare ≤ self.new.spare + 1 }
    {
        if self.agree.may_take_share(from, key) {
            self.agree.take_share(from, key, share);
        }
    }

    /// All members' shares come.
    fn take_shares(&mut self, from: u16, key: &Key, list: &ShareList, out: &mut Outbox<W>)
        requires room { 1 ≤ self.old.spare }
        requires counts { CountsAreLow self.old }
        requires ready { IsReady out.old }
        ensures state { self.new.state ≡ (delivers self.old.state from (Some (seen.Agreeing (agree.Shares key.now list.now)))).state }
        ensures sent { sent_by self.old.state.setting.contexts out.new ≡ (delivers self.old.state from (Some (seen.Agreeing (agree.Shares key.now list.now)))).sent }
        ensures few { length (sent_by self.old.state.setting.contexts out.new) ≤ MOST_SENT }
        ensures boxed { self.new.boxed ≡ self.old.boxed }
        ensures spare { self.old.spare ≤ self.new.spare + 1 }
    {
        if self.agree.may_take_shares(from, key, list) {
            let next = self.agree.take_shares(from, key, list, &mut out.agreed);
            self.threads.go_on(key, next);
        }
    }

    /// A packet of the agreement comes.
    fn take_agreeing(&mut self, from: u16, packet: &AgreePacket<W>, out: &mut Outbox<W>)
        requires room { 1 ≤ self.old.spare }
        requires counts { CountsAreLow self.old }
        requires ready { IsReady out.old }
        ensures state { self.new.state ≡ (delivers self.old.state from (Some (seen.Agreeing (agree_rows.packet_of self.old.state.setting.contexts packet.now)))).state }
        ensures sent { sent_by self.old.state.setting.contexts out.new ≡ (delivers self.old.state from (Some (seen.Agreeing (agree_rows.packet_of self.old.state.setting.contexts packet.now)))).sent }
        ensures few { length (sent_by self.old.state.setting.contexts out.new) ≤ MOST_SENT }
        ensures boxed { self.new.boxed ≡ self.old.boxed }
        ensures spare { self.old.spare ≤ self.new.spare + 1 }
    {
        match packet {
            AgreePacket::Up {
                key,
                round,
                own,
                mask,
            } => self.take_up(from, key, *round, *own, mask, out),
            AgreePacket::Down {
                key,
                round,
                verdict,
            } => self.take_down(from, key, *round, *verdict, out),
            AgreePacket::Share { key, share } => self.take_share(from, key, *share),
            AgreePacket::Shares { key, list } => self.take_shares(from, key, list, out),
        }
    }

    /// A message comes. It is kept also where its context is not known here yet; one of another sender,
    /// or of no context, changes nothing.
    #[tactic(auto, unfolding(mpi_protocol::specs::Delivers::delivers, mpi_protocol::specs::Delivers::takes_packet))]
    fn take_message(&mut self, from: u16, msg: Msg) -> Option<Matched>
        requires room { 1 ≤ self.old.spare }
        requires count { self.old.boxed < 2 ^ 64 - 1 }
        ensures state { self.new.state ≡ (delivers self.old.state from (Some (seen.Message msg))).state }
        ensures matched { result ≡ (delivers self.old.state from (Some (seen.Message msg))).matched }
        ensures boxed { self.new.boxed ≤ self.old.boxed + 1 }
        ensures spare { self.old.spare ≤ self.new.spare + 1 }
    {
        if msg.from != from || !self.is_context(msg.ctx) {
            return None;
        }
        self.arrive(msg)
    }

    /// A marker comes. It is noted also where its context is not known here yet; one that is noted, or
    /// of no context, changes nothing.
    #[tactic(auto, unfolding(mpi_protocol::specs::Delivers::delivers, mpi_protocol::specs::Delivers::takes_packet))]
    fn take_marker(&mut self, from: u16, ctx: u16)
        requires room { 1 ≤ self.old.spare }
        ensures state { self.new.state ≡ (delivers self.old.state from (Some (seen.Marker ctx))).state }
        ensures boxed { self.new.boxed ≡ self.old.boxed }
        ensures spare { self.old.spare ≤ self.new.spare + 1 }
    {
        if self.is_context(ctx) && !self.comms.is_noted(ctx, from) {
            self.comms.marker(ctx, from);
        }
    }

    /// A packet comes, and gives the match that it made.
    fn take(&mut self, from: u16, packet: Packet<W>, out: &mut Outbox<W>) -> Option<Matched>
        requires room { 1 ≤ self.old.spare }
        requires counts { CountsAreLow self.old }
        requires ready { IsReady out.old }
        ensures state { self.new.state ≡ (delivers self.old.state from (Some (packet_of self.old.state.setting.contexts packet.entry))).state }
        ensures matched { result ≡ (delivers self.old.state from (Some (packet_of self.old.state.setting.contexts packet.entry))).matched }
        ensures sent { sent_by self.old.state.setting.contexts out.new ≡ (delivers self.old.state from (Some (packet_of self.old.state.setting.contexts packet.entry))).sent }
        ensures few { length (sent_by self.old.state.setting.contexts out.new) ≤ MOST_SENT }
        ensures boxed { self.new.boxed ≤ self.old.boxed + 1 }
        ensures spare { self.old.spare ≤ self.new.spare + 1 }
    {
        match packet {
            Packet::Agreeing(packet) => {
                self.take_agreeing(from, &packet, out);
                None
            }
            Packet::Message(msg) => self.take_message(from, msg),
            Packet::Marker(ctx) => {
                self.take_marker(from, ctx);
                None
            }
        }
    }

    /// A packet comes from another rank. Nothing is asked of it: one that the rank does not take changes
    /// nothing, and still gives its entry.
    pub fn deliver(&mut self, from: u16, packet: Packet<W>, out: &mut Outbox<W>) -> Entry
        requires room { 1 ≤ self.old.spare }
        requires counts { CountsAreLow self.old }
        requires ready { IsReady out.old }
        ensures { Makes self.old (Act.Deliver from) (Some (packet_of self.old.state.setting.contexts packet.entry)) self.new result out.new }
    {
        let brief = packet.brief();
        let matched = self.take(from, packet, out);
        self.entry(
            Act::Deliver { from },
            Told {
                brief: Some(brief),
                matched,
                ..Told::nothing()
            },
        )
    }
}
