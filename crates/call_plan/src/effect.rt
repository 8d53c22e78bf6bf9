//! What any operation does.
ghost use Rattle.std.specs.Prelude.{◌≡◌, ◌<◌};
ghost use Rattle.mpi_law.specs.Local.{call_of, effect_of};
ghost use Rattle.call_plan.specs.Targets.{BindsFree};
ghost use Rattle.call_plan.specs.Receivers.{SendsWithin};

use crate::call::{Around, Call};
use mpi_base::{ErrClass, Op, Reply};
use mpi_law::Effect;

impl<A: Around> Call<'_, A> {
    /// What an operation does, or why it is refused.
    #[tactic(auto, unfolding(mpi_law::specs::Local::call_of))]
    fn planned(&self, op: &Op) -> Result<Effect<u16>, ErrClass>
        requires { self.now.rank < self.now.setting.now.psets.ranks }
        ensures { result ≡ call_of self.now.setting.now self.now.rank (A.seen self.now.around.now) self.now.objects.now.local op.now }
    {
        match op {
            Op::Session(target) => self.session(target),
            Op::Finalize(session) => self.finalize(session),
            Op::Psets(session) => self.psets(session),
            Op::Nth(session, number) => self.nth(session, *number),
            Op::Info(session, set) => self.info(session, set),
            Op::Pset(session, set, target) => self.pset(session, set, target),
            Op::Union(first, second, target) => self.union(first, second, target),
            Op::Intersect(first, second, target) => self.intersect(first, second, target),
            Op::Difference(first, second, target) => self.difference(first, second, target),
            Op::Incl(group, ranks, target) => self.incl(group, ranks, target),
            Op::Excl(group, ranks, target) => self.excl(group, ranks, target),
            Op::RangeIncl(group, ranges, target) => self.range_incl(group, ranges, target),
            Op::RangeExcl(group, ranges, target) => self.range_excl(group, ranges, target),
            Op::Translate(from, ranks, to) => self.translate(from, ranks, to),
            Op::Compare(first, second) => self.compare(first, second),
            Op::Size(group) => self.size(group),
            Op::Rank(group) => self.rank(group),
            Op::Gfree(group) => self.gfree(group),
            Op::Create(group, tag, target) => self.create(group, tag, target),
            Op::Dup(comm, target) => self.dup(comm, target),
            Op::Split(comm, colour, key, target) => self.split(comm, *colour, *key, target),
            Op::CreateGroup(comm, group, tag, target) => {
                self.create_group(comm, group, *tag, target)
            }
            Op::Group(comm, target) => self.group(comm, target),
            Op::Ccompare(first, second) => self.ccompare(first, second),
            Op::Csize(comm) => self.csize(comm),
            Op::Crank(comm) => self.crank(comm),
            Op::Free(comm) => self.free(comm),
            Op::Send(comm, to, tag, payload) => self.send(comm, *to, *tag, payload),
            Op::Recv(comm, from, tag, room) => self.recv(comm, *from, *tag, *room),
            Op::Irecv(comm, from, tag, room, target) => {
                self.irecv(comm, *from, *tag, *room, target)
            }
            Op::Wait(request) => self.wait(request),
            Op::Await(name) => Ok(Effect::Awaits(name.copy())),
        }
    }

    /// What an operation of the caller does, or the refusal that it replies. Nothing changes yet. The
    /// caller's rank is one of those of the process sets. The name that the effect binds is neither
    /// bound nor reserved, and the receiver of a message is a rank of the communicator. The order of
    /// refusals is this project's own.
    pub fn effect(&self, op: &Op) -> Effect<u16>
        requires { self.now.rank < self.now.setting.now.psets.ranks }
        ensures effect { result ≡ effect_of self.now.setting.now self.now.rank (A.seen self.now.around.now) self.now.objects.now.local op.now }
        ensures free { BindsFree self.now.objects.now.local.names result }
        ensures receiver { SendsWithin (A.seen self.now.around.now).members result }
    {
        match self.planned(op) {
            Ok(effect) => effect,
            Err(class) => Effect::Says(Reply::Refused(class)),
        }
    }
}
