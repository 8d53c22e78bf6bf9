//! The registry.
ghost use Rattle.std.specs.Prelude.{◌≡◌, ◌↔◌, true, IfOk, OnErr};
ghost use Rattle.mpi_law.specs.Closed.{is_closed};
ghost use Rattle.mpi_law.specs.Settings.{IsSetting};
ghost use Rattle.mpi_law.specs.Registry.State.{registry_opening};
ghost use Rattle.mpi_law.specs.Registry.Runs.{IsRegistryRun, registry_after};
ghost use Rattle.mpi_protocol.specs.Run.{entry_events, events_of};
ghost use Rattle.central_registry.specs.Held.{IsRunning};
ghost use Rattle.central_registry.specs.Moves.{Moves, HasMoved};

use crate::tables::Tables;
use mpi_base::{Act, Entry, OutOfMemory};
use mpi_law::{Scripts, Setting};
use std::alloc::Global;
use std::marker::Model;

/// The central registry of a setting: communicators, creations, messages, receives, and the names and
/// threads of each rank.
///
/// The type keeps that the registry is what the entries of some journal have led to from the opening, each
/// of them a step of it.
#[derive(Drop)]
pub struct Registry {
    alloc: Global,
    setting: Setting,
    tables: Tables,
}

impl Model for Registry {
    ghost use Rattle.central_registry.specs.Held.{Held, IsRunning};

    ghost Value = { Held };

    ghost view = { λ r. record { setting = r.setting; state = r.tables.state } };

    ghost invariant = { λ r. IsRunning r.setting r.tables.state };
}

impl Tables {
    /// Moves by an entry of a journal, where its events are steps of the registry, and tells whether they
    /// are. Otherwise, and after an Err, nothing has changed.
    fn step(&mut self, alloc: Global, setting: &Setting, entry: &Entry) -> Result<bool, OutOfMemory>
        requires { IsRunning setting.now self.old.state }
        ensures ok { IfOk result (λ moved. Moves (IsRegistryRun setting.now self.old.state (entry_events entry.now)) self.old.state (registry_after setting.now self.old.state (entry_events entry.now)) moved self.new.state) }
        ensures err { OnErr result (self.new.state ≡ self.old.state) }
    {
        let rank = entry.choice.rank;
        match &entry.choice.act {
            Act::Call { thread, op } => {
                self.call(setting, rank, *thread, op, entry.matched, &entry.reply)
            }
            Act::Answer { thread } => self.answer(rank, *thread, &entry.reply),
            Act::Deliver { .. } => Ok(self.deliver(rank, entry.matched)),
            Act::Settle { key } => self.settle(alloc, setting, rank, key, entry.said),
            Act::Back { ctx } => self.give_back(setting, rank, *ctx, entry.dropped),
            Act::Offer { .. } | Act::Leave { .. } => Ok(true),
        }
    }
}

impl Registry {
    /// The registry of a setting, with nothing called. It takes a copy of the setting.
    pub fn start(alloc: Global, setting: &Setting) -> Result<Registry, OutOfMemory>
        requires { IsSetting setting.now }
        ensures setting { IfOk result (λ r. r.setting ≡ setting.now) }
        ensures opening { IfOk result (λ r. r.state ≡ registry_opening setting.now) }
    {
        Ok(Registry {
            tables: Tables::start(alloc, setting.ranks)?,
            setting: setting.try_copy(alloc)?,
            alloc,
        })
    }

    /// Moves by an entry of a journal, where its events are steps of the registry, and tells whether they
    /// are. Otherwise, and after an Err, nothing has changed. A communicator beyond the 65,536th, and a count
    /// beyond the greatest `u64`, are answered as want of memory.
    pub fn try_step(&mut self, entry: &Entry) -> Result<bool, OutOfMemory>
        ensures setting { self.new.setting ≡ self.old.setting }
        ensures ok { IfOk result (λ moved. Moves (IsRegistryRun self.old.setting self.old.state (entry_events entry.now)) self.old.state (registry_after self.old.setting self.old.state (entry_events entry.now)) moved self.new.state) }
        ensures err { OnErr result (self.new.state ≡ self.old.state) }
    {
        self.tables.step(self.alloc, &self.setting, entry)
    }

    /// Moves by the entries of a journal, one after another, up to the first whose events are no steps of
    /// the registry, and tells whether all are. After an Err it has moved by those before some entry.
    pub fn try_steps(&mut self, entries: &[Entry]) -> Result<bool, OutOfMemory>
        ensures setting { self.new.setting ≡ self.old.setting }
        ensures run { IfOk result (λ all. (all ≡ true) ↔ IsRegistryRun self.old.setting self.old.state (events_of entries.now)) }
        ensures state { IfOk result (λ all. all ≡ true → self.new.state ≡ registry_after self.old.setting self.old.state (events_of entries.now)) }
        ensures front { HasMoved self.old.setting self.old.state entries.now self.new.state }
    {
        for entry in entries {
            if !self.try_step(entry)? {
                return Ok(false);
            }
        }
        Ok(true)
    }

    /// Whether nothing but calls beyond the scripts may come. The scripts are of as many ranks as the setting.
    pub fn closed(&self, scripts: &Scripts) -> bool
        requires { scripts.now.ranks ≡ self.now.setting.ranks }
        ensures { result ≡ is_closed self.now.setting scripts.now self.now.state }
    {
        self.tables.is_closed(&self.setting, scripts)
    }
}
