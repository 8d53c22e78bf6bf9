//! The table of names.
ghost use Rattle.std.specs.Prelude.{◌≡◌, ◌≤◌, ◌+◌, not, is_some, if◌then◌else◌, [], None, Some, OnOk, option_copied, option_map};
ghost use Rattle.std.specs.Bool.{OnFalse, OnTrue};
ghost use Rattle.local_law.specs.Names.{bound_of, bind, rebind, unbind};
ghost use Rattle.local_law.specs.NameFacts.{AreDistinct};
ghost use Rattle.local_law.specs.Objects as objects;
ghost use Rattle.bind_tab.specs.Rows.{unbind_session, is_of, seen};

use crate::bound::Bound;
use indexmap::IndexMap;
use mpi_base::{Name, OutOfMemory};
use std::alloc::Global;
use std::marker::Model;

/// The names of a rank, and what each is bound to. Names are distinct.
#[derive(Drop)]
pub struct Binds {
    names: IndexMap<Name, Bound>,
}

impl Model for Binds {
    ghost use Rattle.indexmap.specs.IndexMap.{spare};
    ghost use Rattle.local_law.specs.NameFacts.{AreDistinct};
    ghost use Rattle.local_law.specs.Renaming.{renamed_rows};
    ghost use Rattle.bind_tab.specs.Rows.{Table, seen};

    ghost Value = { Table };

    ghost view = { λ b. record { rows = renamed_rows seen b.names.entries; spare = spare b.names } };

    ghost invariant = { λ b. AreDistinct b.names.entries };
}

impl Binds {
    /// No name.
    pub fn none(alloc: Global) -> Binds
        ensures { result.rows ≡ [] }
    {
        Binds {
            names: IndexMap::new(alloc),
        }
    }

    /// Makes room for one name more. The names stay, whatever it answers.
    pub fn reserve(&mut self) -> Result<(), OutOfMemory>
        ensures ok { OnOk result (1 ≤ self.new.spare) }
        ensures rows { self.new.rows ≡ self.old.rows }
        ensures spare { self.old.spare ≤ self.new.spare }
    {
        self.names.reserve(1)?;
        Ok(())
    }

    /// Reserves a name. There is room for it. False, with nothing changed, exactly where the name is
    /// bound or reserved.
    pub fn hold(&mut self, name: Name) -> bool
        requires { 1 ≤ self.old.spare }
        ensures when { result ≡ not (is_some (bound_of self.old.rows name)) }
        ensures rows { self.new.rows ≡ (if result then bind self.old.rows name objects.Reserved else self.old.rows) }
        ensures held { OnTrue result (bound_of self.new.rows name ≡ Some objects.Reserved) }
        ensures spare { self.old.spare ≤ self.new.spare + 1 }
        ensures refused { OnFalse result (self.new ≡ self.old) }
    {
        if self.find(&name).is_some() {
            return false;
        }
        self.bind(name, Bound::Reserved);
        true
    }

    /// Binds a name that is neither bound nor reserved. There is room for it.
    pub fn bind(&mut self, name: Name, what: Bound)
        requires room { 1 ≤ self.old.spare }
        requires free { bound_of self.old.rows name ≡ None }
        ensures rows { self.new.rows ≡ bind self.old.rows name (seen what) }
        ensures spare { self.old.spare ≤ self.new.spare + 1 }
    {
        self.names.insert(name, what).unwrap();
    }

    /// Binds a name that is bound or reserved to something else; without such a name nothing changes.
    /// All other names stay.
    pub fn fill(&mut self, name: &Name, what: Bound)
        ensures rows { self.new.rows ≡ rebind self.old.rows name.now (seen what) }
        ensures spare { self.old.spare ≤ self.new.spare }
    {
        if let Some(bound) = self.names.get_mut(name) {
            *bound = what;
        }
    }

    /// Takes a name out, and gives what it was bound to; None exactly where it is not in the table. All
    /// other names stay.
    pub fn unbind(&mut self, name: &Name) -> Option<Bound>
        ensures value { option_map seen result ≡ bound_of self.old.rows name.now }
        ensures rows { self.new.rows ≡ unbind self.old.rows name.now }
        ensures spare { self.old.spare ≤ self.new.spare }
    {
        self.names.shift_remove(name)
    }

    /// Takes out each name that is bound to the session with this serial, or to a group or a
    /// communicator of it. All other names stay, those of requests and reserved ones too.
    pub fn unbind_session(&mut self, session: u64)
        ensures rows { self.new.rows ≡ unbind_session self.old.rows session }
        ensures spare { self.old.spare ≤ self.new.spare }
    {
        self.names.retain(
            |_name: &Name, bound: &mut Bound| -> bool
                ensures { (result ≡ not (is_of session (seen bound.old))) × (bound.new ≡ bound.old) }
            { !bound.is_of(session) },
        );
    }

    /// What a name is bound to, `Reserved` where it is reserved; None exactly where it is not in the
    /// table.
    pub fn find(&self, name: &Name) -> Option<&Bound>
        ensures value { option_map seen (option_copied result) ≡ bound_of self.now.rows name.now }
        ensures form { AreDistinct self.now.rows }
    {
        self.names.get(name)
    }
}
