//! Calls on communicators.
ghost use Rattle.std.specs.Prelude.{◌≡◌};
ghost use Rattle.mpi_law.specs.Local.Comms.{of_comms as alike_comms, comm_likeness, call_group, call_ccompare, call_csize, call_crank, call_free};

use crate::call::{Around, Call};
use mpi_base::{ErrClass, Likeness, Name, Reply};
use mpi_group::Group;
use mpi_law::Effect;

/// How alike two communicators are whose groups are so alike, and which are not the same one.
fn of_comms(groups: Likeness) -> Likeness
    ensures { result ≡ alike_comms groups }
{
    match groups {
        Likeness::Ident | Likeness::Congruent => Likeness::Congruent,
        Likeness::Similar => Likeness::Similar,
        Likeness::Unequal => Likeness::Unequal,
    }
}

impl<A: Around> Call<'_, A> {
    /// The group of a communicator.
    pub(crate) fn group(&self, comm: &Name, target: &Name) -> Result<Effect<u16>, ErrClass>
        ensures { result ≡ call_group (A.seen self.now.around.now) self.now.objects.now.local comm.now target.now }
    {
        let (comm, session) = self.comm_named(comm)?;
        self.binds_group(self.around.members(comm), session, target)
    }

    /// How alike two communicators are, by their numbers.
    fn comm_likeness(&self, first: u16, second: u16) -> Likeness
        ensures { result ≡ comm_likeness (A.seen self.now.around.now) first second }
    {
        if first == second {
            return Likeness::Ident;
        }
        let first = Group::of(self.around.members(first));
        let second = Group::of(self.around.members(second));
        of_comms(first.compare(&second))
    }

    /// How alike two communicators are.
    pub(crate) fn ccompare(&self, first: &Name, second: &Name) -> Result<Effect<u16>, ErrClass>
        ensures { result ≡ call_ccompare (A.seen self.now.around.now) self.now.objects.now.local first.now second.now }
    {
        let ((first, _), (second, _)) = self.two_comms(first, second)?;
        Ok(Effect::Says(Reply::Like(self.comm_likeness(first, second))))
    }

    /// The size of a communicator.
    pub(crate) fn csize(&self, comm: &Name) -> Result<Effect<u16>, ErrClass>
        ensures { result ≡ call_csize (A.seen self.now.around.now) self.now.objects.now.local comm.now }
    {
        let (comm, _) = self.comm_named(comm)?;
        Ok(Effect::Says(Reply::Size(self.around.size(comm))))
    }

    /// This rank's rank in a communicator.
    pub(crate) fn crank(&self, comm: &Name) -> Result<Effect<u16>, ErrClass>
        ensures { result ≡ call_crank self.now.rank (A.seen self.now.around.now) self.now.objects.now.local comm.now }
    {
        let (comm, _) = self.comm_named(comm)?;
        let rank = self.around.members(comm).place_of(self.rank);
        Ok(Effect::Says(Reply::Rank(rank)))
    }

    /// Frees a communicator.
    pub(crate) fn free(&self, comm: &Name) -> Result<Effect<u16>, ErrClass>
        ensures { result ≡ call_free self.now.objects.now.local comm.now }
    {
        let (freed, _) = self.comm_named(comm)?;
        Ok(Effect::Frees {
            name: comm.copy(),
            comm: freed,
        })
    }
}
