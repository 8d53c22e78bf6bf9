//! The world.
ghost use Rattle.std.specs.Prelude.{◌≡◌, ◌<◌, ◌≤◌, ◌-◌, ◌^◌, [], IfOk, IfSome, OnOk, true, false, ℕ, length, min, option_copied};
ghost use Rattle.std.specs.Option.{IfNone};
ghost use Rattle.std.specs.List.{sum_by};
ghost use Rattle.and_reduce.specs.Fronts.{HasPlaces};
ghost use Rattle.mpi_law.specs.Settings.{IsSetting};
ghost use Rattle.mpi_law.specs.declared.setting.TheConstants.{THREADS};
ghost use Rattle.mpi_protocol.specs.Order.{offered_anywhere};
ghost use Rattle.mpi_protocol.specs.Rank.{is_idle as is_idle_at, thread_at};
ghost use Rattle.mpi_protocol.specs.World.{opening, rank_at, may_happen, has_packet as has_packet_for};
ghost use Rattle.mpi_protocol.specs.Run.{IsProtocolRun, end_of};
ghost use Rattle.mpi_protocol.specs.Step.{is_enabled};
ghost use Rattle.rank_core.specs.Next.{IsNext, NoneNext};
ghost use Rattle.world_core.specs.Held.{HasRoom};

use crate::journal::Journal;
use agree_law::CreationRow;
use link_net::Links;
use mpi_base::{Act, Choice, Key, OutOfMemory};
use mpi_law::Setting;
use rank_core::{Outbox, Packet, RankState, StepKind};
use rank_law::counts_rise;
use std::alloc::Global;
use std::marker::Model;

/// All ranks of a job, the links between them, and the journal of all steps from the opening. `W` is
/// from 1 to 32, and the setting has fewer than `64 * W` contexts.
///
/// The type keeps that the journal is a protocol run of the setting which ends in this state: no world
/// can be made in another way than by steps that were enabled.
#[derive(Drop)]
pub struct World<const W: usize> {
    pub(crate) setting: Setting,
    pub(crate) ranks: Vec<RankState<W>>,
    pub(crate) links: Links<Packet<W>>,
    pub(crate) journal: Journal,
    pub(crate) outbox: Outbox<W>,
}

impl<const W: usize> Model for World<W> {
    ghost use Rattle.std.specs.Prelude.{◌≡◌, [], map};
    ghost use Rattle.world_core.specs.Held.{Held, IsWorld};
    ghost use Rattle.world_core.specs.Posted.{world_of};

    ghost Value = { Held };

    ghost view = { λ w. record {
      setting = w.setting;
      world = world_of w.setting w.ranks.items w.links;
      entries = w.journal.entries;
      steps = map (λ r. r.spare) w.ranks.items;
      links = w.links.rooms;
      writes = w.journal.spare;
      sends = w.outbox.room;
    } };

    ghost invariant = { λ w. IsWorld W w.setting (world_of w.setting w.ranks.items w.links) w.journal.entries w.ranks.items × (w.links.ranks ≡ w.setting.ranks) × (w.outbox.agreed ≡ []) × (w.outbox.others ≡ []) };
}

impl<const W: usize> World<W> {
    /// The opening of a setting: nothing called, every link and the journal empty. Want of memory drops
    /// the setting.
    pub fn start(alloc: Global, setting: Setting) -> Result<World<W>, OutOfMemory>
        requires setting { IsSetting setting }
        requires places { HasPlaces W setting.contexts }
        ensures setting { IfOk result (λ w. w.setting ≡ setting) }
        ensures opening { IfOk result (λ w. w.world ≡ opening setting) }
        ensures entries { IfOk result (λ w. w.entries ≡ []) }
    {
        counts_rise();
        let mut ranks = Vec::with_capacity(alloc, setting.ranks as usize)?;
        for rank in 0..setting.ranks {
            ranks.push_reserved(RankState::start(alloc, rank, &setting)?);
        }
        Ok(World {
            links: Links::start(alloc, setting.ranks)?,
            journal: Journal::none(alloc),
            outbox: Outbox::none(alloc),
            ranks,
            setting,
        })
    }

    /// Makes room for a step of a rank. The world stays, whatever it answers.
    pub fn reserve_step(&mut self, rank: u16) -> Result<(), OutOfMemory>
        requires rank { rank < self.old.setting.ranks }
        ensures setting { self.new.setting ≡ self.old.setting }
        ensures world { self.new.world ≡ self.old.world }
        ensures entries { self.new.entries ≡ self.old.entries }
        ensures ok { OnOk result (HasRoom self.new rank) }
    {
        self.links.reserve(rank, 16)?;
        self.journal.reserve(1)?;
        self.outbox.reserve()?;
        self.ranks[rank as usize].reserve()
    }

    /// What the world is of.
    pub fn setting(&self) -> &Setting
        ensures setting { result.now ≡ self.now.setting }
        ensures form { IsSetting self.now.setting }
        ensures ranks { length self.now.world.ranks ≡ self.now.setting.ranks }
    {
        &self.setting
    }

    /// All steps so far.
    pub fn journal(&self) -> &Journal
        ensures entries { result.now.entries ≡ self.now.entries }
        ensures run { IsProtocolRun self.now.setting self.now.entries }
        ensures end { self.now.world ≡ end_of self.now.setting self.now.entries }
    {
        &self.journal
    }

    /// The journal; the world is gone.
    pub fn into_journal(self) -> Journal
        ensures entries { result.entries ≡ self.entry.entries }
        ensures run { IsProtocolRun self.entry.setting self.entry.entries }
        ensures end { self.entry.world ≡ end_of self.entry.setting self.entry.entries }
    {
        self.journal
    }

    /// How many operations a thread has called.
    pub fn calls(&self, rank: u16, thread: u8) -> u64
        requires rank { rank < self.now.setting.ranks }
        requires thread { thread < THREADS }
        ensures { result ≡ (thread_at (rank_at self.now.world rank) thread).calls }
    {
        self.ranks[rank as usize].calls(thread)
    }

    /// Whether a thread waits for nothing.
    pub fn idle(&self, rank: u16, thread: u8) -> bool
        requires rank { rank < self.now.setting.ranks }
        requires thread { thread < THREADS }
        ensures { result ≡ is_idle_at (thread_at (rank_at self.now.world rank) thread).waits }
    {
        self.ranks[rank as usize].is_idle(thread)
    }

    /// Whether a choice may be made.
    pub fn enabled(&self, choice: &Choice) -> bool
        ensures { result ≡ may_happen self.now.world choice.now }
    {
        match self.ranks.get(choice.rank as usize) {
            Some(state) => self.has_packet(choice.rank, &choice.act) && state.enabled(&choice.act),
            None => false,
        }
    }

    /// Whether there is what an act takes from a link.
    fn has_packet(&self, rank: u16, act: &Act) -> bool
        requires rank { rank < self.now.setting.ranks }
        ensures { result ≡ has_packet_for self.now.world rank act.now }
    {
        match act {
            Act::Deliver { from } => {
                *from < self.setting.ranks && self.links.head(*from, rank).is_some()
            }
            Act::Call { .. }
            | Act::Answer { .. }
            | Act::Offer { .. }
            | Act::Settle { .. }
            | Act::Leave { .. }
            | Act::Back { .. } => true,
        }
    }

    /// The first enabled step of a kind at a rank after `after`, as [`RankState::next`].
    pub fn next(&self, rank: u16, kind: StepKind, after: Option<&Act>) -> Option<Act>
        requires rank { rank < self.now.setting.ranks }
        ensures found { IfSome result (λ a. IsNext (rank_at self.now.world rank) kind (option_copied after.entry) a) }
        ensures none { IfNone result (NoneNext (rank_at self.now.world rank) kind (option_copied after.entry)) }
    {
        self.ranks[rank as usize].next(kind, after)
    }

    /// Whether a step of a kind may be there at a rank: false only where none may be made. It is quicker
    /// than [`World::next`].
    pub fn has_next(&self, rank: u16, kind: StepKind) -> bool
        requires rank { rank < self.now.setting.ranks }
        ensures none { result ≡ false → NoneNext (rank_at self.now.world rank) kind None }
    {
        self.ranks[rank as usize].has_next(kind)
    }

    /// Whether a packet of a rank may be on its way: false only where none of it may be delivered.
    pub fn has_sent(&self, from: u16) -> bool
        ensures none { result ≡ false → (rank : ℕ) → may_happen self.now.world (record { rank = rank; act = Act.Deliver from }) ≡ false }
    {
        for rank in 0..self.setting.ranks {
            if self.has_packet(rank, &Act::Deliver { from }) {
                return true;
            }
        }
        false
    }

    /// Whether some rank has made its offer of a creation's round, and has no verdict on it.
    pub fn is_offered(&self, key: &Key) -> bool
        ensures { result ≡ offered_anywhere self.now.world key.now }
    {
        for state in self.ranks.iter() {
            if state.is_offered(key) {
                return true;
            }
        }
        false
    }

    /// The creations that are open in the agreement at a rank, in the order in which they were called.
    pub fn opened(&self, rank: u16) -> &[CreationRow]
        requires { rank < self.now.setting.ranks }
        ensures { result.now ≡ (rank_at self.now.world rank).agree.opened }
    {
        self.ranks[rank as usize].opened()
    }

    /// Whether the offer of a creation is due at a rank.
    pub fn may_offer(&self, rank: u16, key: &Key) -> bool
        requires { rank < self.now.setting.ranks }
        ensures { result ≡ is_enabled (rank_at self.now.world rank) (Act.Offer key.now) }
    {
        self.ranks[rank as usize].may_offer(key)
    }

    /// How many packets are on the links, at most the greatest `u64`.
    pub fn in_flight(&self) -> u64
        ensures { result ≡ min (sum_by length self.now.world.links) (2 ^ 64 - 1) }
    {
        self.links.in_flight()
    }

    /// How many communicators stand in the ranks' tables, at most the greatest `u64`.
    pub fn live_pairs(&self) -> u64
        ensures { result ≡ min (sum_by (λ x. length x.comms.rows) self.now.world.ranks) (2 ^ 64 - 1) }
    {
        let mut pairs: u64 = 0;
        for state in self.ranks.iter() {
            pairs = pairs.saturating_add(state.comms().len() as u64);
        }
        pairs
    }
}
