//! The state of a rank.
ghost use Rattle.std.specs.Prelude.{◌≡◌, ◌<◌, ◌≤◌, IfOk, OnOk};
ghost use Rattle.and_reduce.specs.Fronts.{HasPlaces};
ghost use Rattle.comm_law.specs.Comms.{comm_at};
ghost use Rattle.mpi_law.specs.Settings.{IsSetting};
ghost use Rattle.mpi_law.specs.declared.setting.TheConstants.{THREADS};
ghost use Rattle.mpi_protocol.specs.Rank.{fresh, thread_at};

use agree_core::Agreements;
use agree_law::CreationRow;
use bind_tab::Objects;
use comm_law::CommRow;
use comm_tab::CommTab;
use match_box::MatchBox;
use mpi_base::{Members, OutOfMemory};
use mpi_law::{Setting, THREADS};
use rank_rows::{Receives, Threads};
use std::alloc::Global;
use std::marker::Model;

/// One rank: its part of the agreement, its communicators, the messages and receives that wait, its
/// names and sessions, and its threads. Its mask has `W` words, from 1 to 32.
///
/// A step needs room, which [`RankState::reserve`] makes; then it takes no memory and cannot fail.
#[derive(Drop)]
pub struct RankState<const W: usize> {
    pub(crate) setting: Setting,
    pub(crate) agree: Agreements<W>,
    pub(crate) comms: CommTab,
    pub(crate) matches: MatchBox,
    pub(crate) receives: Receives,
    pub(crate) objects: Objects,
    pub(crate) threads: Threads,
    pub(crate) sends: u64,
    pub(crate) posts: u64,
}

impl<const W: usize> Model for RankState<W> {
    ghost use Rattle.std.specs.Prelude.{min};
    ghost use Rattle.rank_core.specs.Held.{Held, IsRank};

    ghost Value = { Held };

    ghost view = { λ r. record {
      state = record {
        rank = r.agree.rank;
        setting = r.setting;
        agree = r.agree.part;
        comms = r.comms.comms;
        box = r.matches.lists;
        receives = r.receives.rows;
        local = r.objects.local;
        threads = r.threads;
        sends = r.sends;
        posts = r.posts;
      };
      boxed = r.matches.count;
      spare = min r.agree.spare (min r.comms.spare (min r.matches.spare (min r.receives.spare r.objects.spare)));
    } };

    ghost invariant = { λ r. IsRank W r.agree.rank r.setting r.agree.top r.comms.rank r.comms.comms.rows };
}

impl<const W: usize> RankState<W> {
    /// A rank of the setting that has called nothing.
    pub fn start(alloc: Global, rank: u16, setting: &Setting) -> Result<RankState<W>, OutOfMemory>
        requires setting { IsSetting setting.now }
        requires rank { rank < setting.now.ranks }
        requires places { HasPlaces W setting.now.contexts }
        ensures state { IfOk result (λ r. r.state ≡ fresh setting.now rank) }
        ensures boxed { IfOk result (λ r. r.boxed ≡ 0) }
    {
        let setting = setting.try_copy(alloc)?;
        let threads = Threads::idle(alloc)?;
        Ok(RankState {
            agree: Agreements::start(alloc, rank, setting.contexts),
            setting,
            comms: CommTab::none(alloc, rank),
            matches: MatchBox::none(alloc),
            receives: Receives::none(alloc),
            objects: Objects::none(alloc),
            threads,
            sends: 0,
            posts: 0,
        })
    }

    /// Makes room for one step more. The state stays, whatever it answers.
    pub fn reserve(&mut self) -> Result<(), OutOfMemory>
        ensures state { self.new.state ≡ self.old.state }
        ensures boxed { self.new.boxed ≡ self.old.boxed }
        ensures ok { OnOk result (1 ≤ self.new.spare) }
    {
        self.agree.reserve()?;
        self.comms.reserve()?;
        self.matches.reserve()?;
        self.receives.reserve()?;
        self.objects.reserve()?;
        Ok(())
    }

    /// The rank's number in the world.
    pub fn rank(&self) -> u16
        ensures { result ≡ self.now.state.rank }
    {
        self.agree.rank()
    }

    /// How many operations a thread has called.
    pub fn calls(&self, thread: u8) -> u64
        requires { thread < THREADS }
        ensures { result ≡ (thread_at self.now.state thread).calls }
    {
        self.threads.calls(thread)
    }

    /// The communicators that the rank knows, in the order in which they were added.
    pub fn comms(&self) -> &[CommRow]
        ensures { result.now ≡ self.now.state.comms.rows }
    {
        self.comms.rows()
    }

    /// The creations that are open in the agreement, in the order in which they were called.
    pub fn opened(&self) -> &[CreationRow]
        ensures { result.now ≡ self.now.state.agree.opened }
    {
        self.agree.opened()
    }

    /// The serial of the communicator with a context; 0 where it is not known here.
    pub(crate) fn serial(&self, ctx: u16) -> u64
        ensures { result ≡ (comm_at self.now.state.comms ctx).serial }
    {
        match self.comms.find(ctx) {
            Some(row) => row.serial,
            None => 0,
        }
    }

    /// The members of the communicator with a context; none where it is not known here.
    pub(crate) fn members(&self, ctx: u16) -> Members
        ensures { result ≡ (comm_at self.now.state.comms ctx).members }
    {
        match self.comms.find(ctx) {
            Some(row) => row.members.copy(),
            None => Members::none(),
        }
    }
}
