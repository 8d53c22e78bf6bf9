//! Creations.
ghost use Rattle.std.specs.Prelude.{◌≡◌, ◌==◌, not};
ghost use Rattle.std.specs.List.{list_all};
ghost use Rattle.mpi_base.specs.MemberLists.{has_rank};
ghost use Rattle.mpi_law.specs.Local.Comms.{ask as ask_for, is_negative as is_below_zero, lacks as lacks_rank, is_astray, call_create, call_dup, call_split, call_create_group};

use crate::call::{Around, Call};
use crate::messages::checked_tag;
use mpi_base::{ErrClass, Name, Reply, Shared1, StringTag};
use mpi_group::Group;
use mpi_law::{Asked, Effect, Origin};

/// A creation that is asked for.
fn ask(origin: Origin<u16>, target: &Name, session: u64) -> Effect<u16>
    ensures { result ≡ ask_for origin target.now session }
{
    Effect::Joins(Asked {
        origin,
        target: target.copy(),
        session,
    })
}

/// Whether a group that is not empty lacks a rank.
fn lacks(group: &Group, rank: u16) -> bool
    ensures { result ≡ lacks_rank group.now rank }
{
    !group.members().is_empty() && group.rank_of(rank).is_none()
}

/// Whether each member of a group is in another.
fn is_within(group: &Group, other: &Group) -> bool
    ensures { result ≡ list_all (has_rank other.now) group.now }
{
    group.difference(other).members().is_empty()
}

/// Whether a colour is below 0.
fn is_negative(colour: Option<i32>) -> bool
    ensures { result ≡ is_below_zero colour }
{
    match colour {
        Some(colour) => colour < 0,
        None => false,
    }
}

impl<A: Around> Call<'_, A> {
    /// A communicator from a group.
    pub(crate) fn create(
        &self,
        group: &Name,
        tag: &StringTag,
        target: &Name,
    ) -> Result<Effect<u16>, ErrClass>
        ensures { result ≡ call_create self.now.rank (A.seen self.now.around.now) self.now.objects.now.local group.now tag.now target.now }
    {
        let (group, session) = self.group_named(group)?;
        if lacks(group, self.rank) {
            return Err(ErrClass::Group);
        }
        if self.is_bound(target) {
            return Err(ErrClass::Arg);
        }
        let origin = Origin::Grouped {
            group: group.members().copy(),
            tag: tag.copy(),
        };
        if self.around.is_busy(&origin) {
            return Err(ErrClass::Busy);
        }
        if group.members().is_empty() {
            return Ok(Effect::Says(Reply::Null));
        }
        Ok(ask(origin, target, session))
    }

    /// A duplicate of a communicator.
    pub(crate) fn dup(&self, comm: &Name, target: &Name) -> Result<Effect<u16>, ErrClass>
        ensures { result ≡ call_dup self.now.objects.now.local comm.now target.now }
    {
        let (comm, session) = self.comm_named(comm)?;
        if self.is_bound(target) {
            return Err(ErrClass::Arg);
        }
        Ok(ask(Origin::Duplicated { comm }, target, session))
    }

    /// A communicator of the members of a communicator with one colour.
    pub(crate) fn split(
        &self,
        comm: &Name,
        colour: Option<i32>,
        key: i32,
        target: &Name,
    ) -> Result<Effect<u16>, ErrClass>
        ensures { result ≡ call_split self.now.objects.now.local comm.now colour key target.now }
    {
        let (comm, session) = self.comm_named(comm)?;
        if is_negative(colour) || self.is_bound(target) {
            return Err(ErrClass::Arg);
        }
        let share = Shared1 { colour, key };
        Ok(ask(Origin::Divided { comm, share }, target, session))
    }

    /// Whether a group has a process outside a communicator, or lacks this rank.
    fn is_astray(&self, comm: u16, group: &Group) -> bool
        ensures { result ≡ is_astray ((A.seen self.now.around.now).members comm) group.now self.now.rank }
    {
        group.rank_of(self.rank).is_none()
            || !is_within(group, &Group::of(self.around.members(comm)))
    }

    /// A communicator of a group under a communicator.
    pub(crate) fn create_group(
        &self,
        comm: &Name,
        group: &Name,
        tag: u32,
        target: &Name,
    ) -> Result<Effect<u16>, ErrClass>
        ensures { result ≡ call_create_group self.now.rank (A.seen self.now.around.now) self.now.objects.now.local comm.now group.now tag target.now }
    {
        let ((comm, session), (group, _)) = self.comm_and_group(comm, group)?;
        let tag = checked_tag(tag)?;
        if self.is_astray(comm, group) {
            return Err(ErrClass::Group);
        }
        if self.is_bound(target) {
            return Err(ErrClass::Arg);
        }
        let group = group.members().copy();
        let origin = Origin::GroupedOn { comm, tag, group };
        if self.around.is_busy(&origin) {
            return Err(ErrClass::Busy);
        }
        Ok(ask(origin, target, session))
    }
}
