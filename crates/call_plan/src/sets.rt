//! Calls on sessions and process sets.
ghost use Rattle.std.specs.Prelude.{◌≡◌, ◌<◌};
ghost use Rattle.pset_reg.specs.Sets.{members_in};
ghost use Rattle.mpi_law.specs.Local.Refusals.{as_arg};
ghost use Rattle.mpi_law.specs.Local.Groups.{binds_group, call_session, call_finalize, call_psets, call_nth, call_info, call_pset};

use crate::call::{Around, Call};
use mpi_base::{ErrClass, Members, Name, PsetName, Reply};
use mpi_law::Effect;

impl<A: Around> Call<'_, A> {
    /// Opens a session.
    pub(crate) fn session(&self, target: &Name) -> Result<Effect<u16>, ErrClass>
        ensures { result ≡ call_session self.now.objects.now.local target.now }
    {
        if self.is_bound(target) {
            return Err(ErrClass::Arg);
        }
        Ok(Effect::Opens(target.copy()))
    }

    /// Ends a session.
    pub(crate) fn finalize(&self, session: &Name) -> Result<Effect<u16>, ErrClass>
        ensures { result ≡ call_finalize (A.seen self.now.around.now) self.now.objects.now.local session.now }
    {
        let serial = self.session_named(session)?;
        if self.around.is_engaged(serial) {
            return Err(ErrClass::Busy);
        }
        Ok(Effect::Ends {
            name: session.copy(),
            session: serial,
        })
    }

    /// The number of process sets.
    pub(crate) fn psets(&self, session: &Name) -> Result<Effect<u16>, ErrClass>
        ensures { result ≡ call_psets self.now.setting.now self.now.objects.now.local session.now }
    {
        self.session_named(session)?;
        Ok(Effect::Says(Reply::Psets(self.setting.psets.size())))
    }

    /// The name of a process set.
    pub(crate) fn nth(&self, session: &Name, number: u32) -> Result<Effect<u16>, ErrClass>
        ensures { result ≡ call_nth self.now.setting.now self.now.objects.now.local session.now number }
    {
        self.session_named(session)?;
        match self.setting.psets.nth(number) {
            Some(name) => Ok(Effect::Says(Reply::NthName(name))),
            None => Err(ErrClass::Arg),
        }
    }

    /// The members of a process set, as this rank sees it.
    fn set_members(&self, set: &PsetName) -> Result<Members, ErrClass>
        requires { self.now.rank < self.now.setting.now.psets.ranks }
        ensures { result ≡ as_arg (members_in self.now.setting.now.psets.sets self.now.rank set.now) }
    {
        self.setting
            .psets
            .members_of(set, self.rank)
            .ok_or(ErrClass::Arg)
    }

    /// The size of a process set.
    pub(crate) fn info(&self, session: &Name, set: &PsetName) -> Result<Effect<u16>, ErrClass>
        requires { self.now.rank < self.now.setting.now.psets.ranks }
        ensures { result ≡ call_info self.now.setting.now self.now.rank self.now.objects.now.local session.now set.now }
    {
        self.session_named(session)?;
        let members = self.set_members(set)?;
        Ok(Effect::Says(Reply::Size0(u32::from(members.len()))))
    }

    /// The group of a process set.
    pub(crate) fn pset(
        &self,
        session: &Name,
        set: &PsetName,
        target: &Name,
    ) -> Result<Effect<u16>, ErrClass>
        requires { self.now.rank < self.now.setting.now.psets.ranks }
        ensures { result ≡ call_pset self.now.setting.now self.now.rank self.now.objects.now.local session.now set.now target.now }
    {
        let session = self.session_named(session)?;
        let members = self.set_members(set)?;
        self.binds_group(members, session, target)
    }

    /// A group of a session, to be bound to a name.
    pub(crate) fn binds_group(
        &self,
        members: Members,
        session: u64,
        target: &Name,
    ) -> Result<Effect<u16>, ErrClass>
        ensures { result ≡ binds_group self.now.objects.now.local members session target.now }
    {
        if self.is_bound(target) {
            return Err(ErrClass::Arg);
        }
        Ok(Effect::Groups {
            target: target.copy(),
            members,
            session,
        })
    }
}
