//! Messages.
ghost use Rattle.std.specs.Prelude.{IfSome, None, ◌≡◌, ◌≤◌, ◌<◌, ◌+◌, ◌-◌, ◌^◌, [], ◌∷◌, ◌++◌, length, map};
ghost use Rattle.agree_law.specs.Tree.{place_in, member_at};
ghost use Rattle.mpi_law.specs.declared.setting.TheConstants.{THREADS};
ghost use Rattle.mpi_protocol.specs.Rank.{thread_at};
ghost use Rattle.mpi_protocol.specs.Calls.{message_of as message_by, posted_of, sends as sends_message, with_post};
ghost use Rattle.mpi_protocol.specs.Moves.{arrives, posts};
ghost use Rattle.local_law.specs.Names.{bound_of};
ghost use Rattle.rank_core.specs.Calling.{requested_as};
ghost use Rattle.rank_core.specs.Packets.{sent_by};
ghost use Rattle.rank_core.specs.Held.{CountsAreLow};

use crate::outbox::Outbox;
use crate::packets::{Packet, Sent};
use crate::rank::RankState;
use bind_tab::{Bound, Objects};
use match_law::Posted;
use mpi_base::{Matched, Members, Msg, Name};
use mpi_law::{MESSAGE_LANE, Receiving, Sending};
use mpi_protocol::Waits;

/// The place of a rank among members; 0 where it is none.
pub(crate) fn place_of(members: &Members, rank: u16) -> u16
    ensures { result ≡ place_in members.now rank }
{
    members.place_of(rank).unwrap_or(0)
}

/// The rank at a place among members; 0 where there is none.
#[tactic(auto, using(and_reduce::proofs::TreeFacts::tree_facts))]
pub(crate) fn member(members: &Members, place: u16) -> u16
    ensures { result ≡ member_at members.now place }
{
    members.get(place).unwrap_or(0)
}

/// Binds a name, if there is one, to the request of a receive.
fn bind_request(objects: &mut Objects, target: Option<Name>, number: u64)
    requires room { 1 ≤ objects.old.spare }
    requires free { IfSome target (λ name. bound_of objects.old.local.names name ≡ None) }
    ensures local { objects.new.local ≡ requested_as objects.old.local target number }
    ensures spare { objects.old.spare ≤ objects.new.spare + 1 }
{
    if let Some(target) = target {
        objects.bind(target, Bound::Request(number));
    }
}

impl<const W: usize> RankState<W> {
    /// A message comes to the rank.
    pub(crate) fn arrive(&mut self, msg: Msg) -> Option<Matched>
        requires room { 1 ≤ self.old.spare }
        requires count { self.old.boxed < 2 ^ 64 - 1 }
        ensures state { self.new.state ≡ (arrives self.old.state msg).0 }
        ensures matched { result ≡ (arrives self.old.state msg).1 }
        ensures boxed { self.new.boxed ≤ self.old.boxed + 1 }
        ensures spare { self.old.spare ≤ self.new.spare + 1 }
    {
        let (receive, msg) = self.matches.arrive(msg)?;
        let matched = Matched {
            receive: receive.number,
            from: msg.from,
            number: msg.number,
        };
        self.receives.take(receive.number, msg);
        Some(matched)
    }

    /// The next message that the rank sends.
    fn message(&self, members: &Members, sending: Sending<u16>) -> Msg
        requires { self.now.state.sends < 2 ^ 64 - 1 }
        ensures { result ≡ record { ctx = sending.comm; lane = 0; from = self.now.state.rank; source = place_in members.now self.now.state.rank; tag = sending.tag; number = self.now.state.sends + 1; payload = sending.payload } }
    {
        let rank = self.agree.rank();
        Msg {
            ctx: sending.comm,
            lane: MESSAGE_LANE,
            from: rank,
            source: place_of(members, rank),
            tag: sending.tag,
            number: self.sends + 1,
            payload: sending.payload,
        }
    }

    /// A thread sends a message. To itself the rank sends no packet: it takes the message at once.
    pub(crate) fn send(
        &mut self,
        thread: u8,
        sending: Sending<u16>,
        out: &mut Outbox<W>,
    ) -> Option<Matched>
        requires thread { thread < THREADS }
        requires room { 1 ≤ self.old.spare }
        requires out { 1 ≤ out.old.room }
        requires counts { CountsAreLow self.old }
        ensures state { self.new.state ≡ (sends_message self.old.state thread self.old.state.local sending).state }
        ensures matched { result ≡ (sends_message self.old.state thread self.old.state.local sending).matched }
        ensures agreed { out.new.agreed ≡ out.old.agreed }
        ensures sent { sent_by self.old.state.setting.contexts out.new ≡ sent_by self.old.state.setting.contexts out.old ++ (sends_message self.old.state thread self.old.state.local sending).sent }
        ensures few { length out.new.others ≤ length out.old.others + 1 }
        ensures boxed { self.new.boxed ≤ self.old.boxed + 1 }
        ensures spare { self.old.spare ≤ self.new.spare + 1 }
    {
        let members = self.members(sending.comm);
        let to = member(&members, sending.to);
        let msg = self.message(&members, sending);
        self.sends += 1;
        self.threads.call(thread, Waits::Nothing);
        if to == self.agree.rank() {
            return self.arrive(msg);
        }
        out.others.push_reserved(Sent {
            to,
            packet: Packet::Message(msg),
        });
        None
    }

    /// A thread posts a receive, with a name for its request or without, and waits for this from now on.
    pub(crate) fn receive(
        &mut self,
        thread: u8,
        receiving: Receiving<u16>,
        target: Option<Name>,
        waits: Waits,
    ) -> Option<Matched>
        requires thread { thread < THREADS }
        requires room { 1 ≤ self.old.spare }
        requires counts { CountsAreLow self.old }
        requires free { IfSome target (λ name. bound_of self.old.state.local.names name ≡ None) }
        ensures state { self.new.state ≡ (posts (with_post self.old.state thread (requested_as self.old.state.local target (self.old.state.posts + 1)) receiving waits) (posted_of self.old.state receiving)).0 }
        ensures matched { result ≡ (posts (with_post self.old.state thread (requested_as self.old.state.local target (self.old.state.posts + 1)) receiving waits) (posted_of self.old.state receiving)).1 }
        ensures boxed { self.new.boxed ≤ self.old.boxed + 1 }
        ensures spare { self.old.spare ≤ self.new.spare + 1 }
    {
        self.posts += 1;
        self.threads.call(thread, waits);
        let number = self.posts;
        bind_request(&mut self.objects, target, number);
        let msg = self.matches.post(Posted {
            number,
            ctx: receiving.comm,
            lane: MESSAGE_LANE,
            source: receiving.source,
            tag: receiving.tag,
        });
        self.receives.push(number, receiving.room);
        let msg = msg?;
        let matched = Matched {
            receive: number,
            from: msg.from,
            number: msg.number,
        };
        self.receives.take(number, msg);
        Some(matched)
    }
}
