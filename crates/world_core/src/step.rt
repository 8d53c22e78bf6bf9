//! The step of a world.
ghost use Rattle.std.specs.Prelude.{◌≡◌, ◌≤◌, ◌<◌, ◌++◌, ◌∷◌, [], true, length};
ghost use Rattle.link_net.specs.Net.{HasRoom as HasRoomFor};
ghost use Rattle.mpi_protocol.specs.Step.{is_enabled};
ghost use Rattle.mpi_protocol.specs.World.{may_happen, moved, entry_at};
ghost use Rattle.rank_core.specs.Held.{CountsAreLow, IsReady, Makes};
ghost use Rattle.rank_core.specs.Packets.{sent_by};
ghost use Rattle.world_core.specs.Held.{HasRoom};
ghost use Rattle.world_core.specs.Posted.{head_on, after_act, HasHead, IsPosted};

use crate::world::World;
use link_net::Links;
use mpi_base::{Act, Choice, Entry};
use rank_core::{Outbox, Packet, RankState};
use rank_law::counts_rise;

/// A rank makes a step; a delivery takes the head of its link.
fn make<const W: usize>(
    state: &mut RankState<W>,
    links: &mut Links<Packet<W>>,
    act: Act,
    out: &mut Outbox<W>,
) -> Entry
    requires enabled { is_enabled state.old.state act ≡ true }
    requires room { 1 ≤ state.old.spare }
    requires counts { CountsAreLow state.old }
    requires ready { IsReady out.old }
    requires head { HasHead links.old state.old.state.rank act }
    ensures made { Makes state.old act (head_on state.old.state.setting.contexts links.old state.old.state.rank act) state.new result out.new }
    ensures links { links.new ≡ after_act links.old state.old.state.rank act }
{
    match act {
        Act::Call { thread, op } => state.call(thread, op, out),
        Act::Answer { thread } => state.answer(thread),
        Act::Deliver { from } => {
            let Some(packet) = links.pop(from, state.rank()) else {
                unreachable!()
            };
            state.deliver(from, packet, out)
        }
        Act::Offer { key } => state.offer(key, out),
        Act::Settle { key } => state.settle(key, out),
        Act::Leave { ctx } => state.leave(ctx, out),
        Act::Back { ctx } => state.back(ctx),
    }
}

/// Puts the packets of a rank on its links, in order. One to no rank of the world goes nowhere.
fn post<const W: usize>(links: &mut Links<Packet<W>>, ranks: u16, rank: u16, out: &mut Outbox<W>)
    requires words { W ≤ 32 }
    requires ranks { links.old.ranks ≡ ranks }
    requires rank { rank < ranks }
    requires room { HasRoomFor links.old rank (length (sent_by 0 out.old)) }
    ensures posted { IsPosted links.old rank out.old links.new }
    ensures ranks { links.new.ranks ≡ links.old.ranks }
    ensures agreed { out.new.agreed ≡ [] }
    ensures others { out.new.others ≡ [] }
{
    while let Some(sent) = out.take_first() {
        if sent.to < ranks {
            links.push(rank, sent.to, sent.packet);
        }
    }
}

impl<const W: usize> World<W> {
    /// Makes a choice that is enabled, and for which there is room. It always succeeds, and appends one
    /// entry to the journal.
    pub fn step(&mut self, choice: Choice)
        requires enabled { may_happen self.old.world choice ≡ true }
        requires room { HasRoom self.old choice.rank }
        ensures setting { self.new.setting ≡ self.old.setting }
        ensures world { self.new.world ≡ moved self.old.world choice }
        ensures entries { self.new.entries ≡ self.old.entries ++ entry_at self.old.world choice ∷ [] }
        ensures choice { (entry_at self.old.world choice).choice ≡ choice }
    {
        counts_rise();
        let rank = choice.rank;
        let entry = make(
            &mut self.ranks[rank as usize],
            &mut self.links,
            choice.act,
            &mut self.outbox,
        );
        post(&mut self.links, self.setting.ranks, rank, &mut self.outbox);
        self.journal.push(entry);
    }
}
