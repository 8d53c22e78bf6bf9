//! What names are bound to.
ghost use Rattle.std.specs.Prelude.{◌≡◌, Ok, Err, IfOk, IfErr, is_some};
ghost use Rattle.local_law.specs.Names.{bound_of};
ghost use Rattle.mpi_law.specs.Local.Refusals.{as_session, as_group, as_comm, as_request, two_groups, two_comms, comm_and_group};

use crate::call::{Around, Call};
use bind_tab::Bound;
use mpi_base::{ErrClass, Name};
use mpi_group::Group;

/// A group, and its session.
pub(crate) type GroupNamed<'a> = (&'a Group, u64);

/// The number of a communicator, and its session.
pub(crate) type CommNamed = (u16, u64);

impl<A: Around> Call<'_, A> {
    /// Whether a name is bound or reserved.
    pub(crate) fn is_bound(&self, name: &Name) -> bool
        ensures { result ≡ is_some (bound_of self.now.objects.now.local.names name.now) }
    {
        self.objects.find(name).is_some()
    }

    /// The session that a name is bound to.
    pub(crate) fn session_named(&self, name: &Name) -> Result<u64, ErrClass>
        ensures { result ≡ as_session (bound_of self.now.objects.now.local.names name.now) }
    {
        match self.objects.find(name) {
            Some(Bound::Session(id)) => Ok(id.serial),
            _ => Err(ErrClass::Session),
        }
    }

    /// The group that a name is bound to, and its session.
    pub(crate) fn group_named(&self, name: &Name) -> Result<GroupNamed<'_>, ErrClass>
        ensures ok { IfOk result (λ g. as_group (bound_of self.now.objects.now.local.names name.now) ≡ Ok (g.0.now, g.1)) }
        ensures err { IfErr result (λ e. as_group (bound_of self.now.objects.now.local.names name.now) ≡ Err e) }
    {
        match self.objects.find(name) {
            Some(Bound::Group(group, session)) => Ok((group, *session)),
            _ => Err(ErrClass::Group),
        }
    }

    /// The number of the communicator that a name is bound to, and its session.
    pub(crate) fn comm_named(&self, name: &Name) -> Result<CommNamed, ErrClass>
        ensures { result ≡ as_comm (bound_of self.now.objects.now.local.names name.now) }
    {
        match self.objects.find(name) {
            Some(Bound::Comm(comm, session)) => Ok((*comm, *session)),
            _ => Err(ErrClass::Comm),
        }
    }

    /// The number of the receive whose request a name is bound to.
    pub(crate) fn request_named(&self, name: &Name) -> Result<u64, ErrClass>
        ensures { result ≡ as_request (bound_of self.now.objects.now.local.names name.now) }
    {
        match self.objects.find(name) {
            Some(Bound::Request(number)) => Ok(*number),
            _ => Err(ErrClass::Request),
        }
    }

    /// Two groups of one session.
    pub(crate) fn two_groups(
        &self,
        first: &Name,
        second: &Name,
    ) -> Result<(GroupNamed<'_>, GroupNamed<'_>), ErrClass>
        ensures ok { IfOk result (λ both. two_groups self.now.objects.now.local first.now second.now ≡ Ok ((both.0.0.now, both.0.1), (both.1.0.now, both.1.1))) }
        ensures err { IfErr result (λ e. two_groups self.now.objects.now.local first.now second.now ≡ Err e) }
    {
        let first = self.group_named(first)?;
        let second = self.group_named(second)?;
        if first.1 != second.1 {
            return Err(ErrClass::Session);
        }
        Ok((first, second))
    }

    /// Two communicators of one session.
    pub(crate) fn two_comms(
        &self,
        first: &Name,
        second: &Name,
    ) -> Result<(CommNamed, CommNamed), ErrClass>
        ensures { result ≡ two_comms self.now.objects.now.local first.now second.now }
    {
        let first = self.comm_named(first)?;
        let second = self.comm_named(second)?;
        if first.1 != second.1 {
            return Err(ErrClass::Session);
        }
        Ok((first, second))
    }

    /// A communicator and a group of one session.
    pub(crate) fn comm_and_group(
        &self,
        comm: &Name,
        group: &Name,
    ) -> Result<(CommNamed, GroupNamed<'_>), ErrClass>
        ensures ok { IfOk result (λ both. comm_and_group self.now.objects.now.local comm.now group.now ≡ Ok (both.0, (both.1.0.now, both.1.1))) }
        ensures err { IfErr result (λ e. comm_and_group self.now.objects.now.local comm.now group.now ≡ Err e) }
    {
        let comm = self.comm_named(comm)?;
        let group = self.group_named(group)?;
        if comm.1 != group.1 {
            return Err(ErrClass::Session);
        }
        Ok((comm, group))
    }
}
