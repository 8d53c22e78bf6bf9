//! The objects of a rank.
ghost use Rattle.std.specs.Prelude.{◌≡◌, ◌≤◌, ◌<◌, ◌+◌, ◌-◌, ◌^◌, ◌==◌, None, OnOk, option_copied, option_map};
ghost use Rattle.local_law.specs.Names.{bound_of, bind, rebind, unbind};
ghost use Rattle.local_law.specs.NameFacts.{AreDistinct};
ghost use Rattle.local_law.specs.Objects as objects;
ghost use Rattle.local_law.specs.Objects.{no_objects, open_session, close_session};
ghost use Rattle.bind_tab.specs.Held.{with_names};
ghost use Rattle.bind_tab.specs.Rows.{seen};

use crate::binds::Binds;
use crate::bound::Bound;
use mpi_base::{Name, OutOfMemory};
use session_tab::Sessions;
use std::alloc::Global;
use std::marker::Model;

/// The names of a rank, each with what it is bound to, and the sessions that are live (MPI 4.0,
/// 11.3.1). A session is known by its serial: the count of sessions that were opened with it, from 1.
#[derive(Drop)]
pub struct Objects {
    names: Binds,
    sessions: Sessions,
}

impl Model for Objects {
    ghost use Rattle.std.specs.Prelude.{min};
    ghost use Rattle.bind_tab.specs.Held.{Held, serials};

    ghost Value = { Held };

    ghost view = { λ o. record {
      local = record { names = o.names.rows; live = serials o.sessions.live; opened = o.sessions.count };
      spare = min o.names.spare o.sessions.spare;
    } };
}

impl Objects {
    /// No name and no session.
    pub fn none(alloc: Global) -> Objects
        ensures { result.local ≡ no_objects }
    {
        Objects {
            names: Binds::none(alloc),
            sessions: Sessions::none(alloc),
        }
    }

    /// Makes room for one name and one session more. Names and sessions stay, whatever it answers.
    pub fn reserve(&mut self) -> Result<(), OutOfMemory>
        ensures ok { OnOk result (1 ≤ self.new.spare) }
        ensures local { self.new.local ≡ self.old.local }
        ensures spare { self.old.spare ≤ self.new.spare }
    {
        self.names.reserve()?;
        self.sessions.reserve()
    }

    /// What a name is bound to, `Reserved` where it is reserved; None exactly where it is neither.
    pub fn find(&self, name: &Name) -> Option<&Bound>
        ensures value { option_map seen (option_copied result) ≡ bound_of self.now.local.names name.now }
        ensures form { AreDistinct self.now.local.names }
    {
        self.names.find(name)
    }

    /// How many sessions were opened so far, closed ones too.
    pub fn opened(&self) -> u64
        ensures { result ≡ self.now.local.opened }
    {
        self.sessions.count()
    }

    /// Opens a session, and binds a name to it that is neither bound nor reserved. There is room for
    /// it, and fewer than the greatest `u64` were opened before.
    pub fn open(&mut self, target: Name)
        requires room { 1 ≤ self.old.spare }
        requires count { self.old.local.opened < 2 ^ 64 - 1 }
        requires free { bound_of self.old.local.names target ≡ None }
        ensures local { self.new.local ≡ open_session (with_names self.old.local (bind self.old.local.names target (objects.Session (self.old.local.opened + 1)))) (self.old.local.opened + 1) }
        ensures spare { self.old.spare ≤ self.new.spare + 1 }
    {
        let id = self.sessions.add();
        self.names.bind(target, Bound::Session(id));
    }

    /// Binds a name that is neither bound nor reserved. There is room for it. The sessions stay.
    pub fn bind(&mut self, target: Name, what: Bound)
        requires room { 1 ≤ self.old.spare }
        requires free { bound_of self.old.local.names target ≡ None }
        ensures local { self.new.local ≡ with_names self.old.local (bind self.old.local.names target (seen what)) }
        ensures spare { self.old.spare ≤ self.new.spare + 1 }
    {
        self.names.bind(target, what);
    }

    /// Reserves a name that is neither bound nor reserved. There is room for it. The sessions stay.
    pub fn hold(&mut self, target: Name)
        requires room { 1 ≤ self.old.spare }
        requires free { bound_of self.old.local.names target ≡ None }
        ensures local { self.new.local ≡ with_names self.old.local (bind self.old.local.names target objects.Reserved) }
        ensures spare { self.old.spare ≤ self.new.spare + 1 }
    {
        self.bind(target, Bound::Reserved);
    }

    /// Binds a name that is bound or reserved to something else; without such a name nothing changes.
    /// All other names and the sessions stay.
    pub fn fill(&mut self, name: &Name, what: Bound)
        ensures local { self.new.local ≡ with_names self.old.local (rebind self.old.local.names name.now (seen what)) }
        ensures spare { self.old.spare ≤ self.new.spare }
    {
        self.names.fill(name, what);
    }

    /// Takes a name out, if it is there. All other names and the sessions stay.
    pub fn unbind(&mut self, name: &Name)
        ensures local { self.new.local ≡ with_names self.old.local (unbind self.old.local.names name.now) }
        ensures spare { self.old.spare ≤ self.new.spare }
    {
        self.names.unbind(name);
    }

    /// Closes the session with this serial, if it is live, and takes out each name that is bound to
    /// it, or to a group or a communicator of it (MPI 4.0, 11.3.1). All other names and sessions stay.
    pub fn end_session(&mut self, session: u64)
        ensures local { self.new.local ≡ close_session self.old.local (λ s. s == session) }
        ensures spare { self.old.spare ≤ self.new.spare }
    {
        self.sessions.close_serial(session);
        self.names.unbind_session(session);
    }
}
