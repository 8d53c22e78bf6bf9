//! What an effect does to a rank's names, sessions and counts.
ghost use Rattle.std.specs.Prelude.{◌≡◌, ◌≤◌, ◌<◌, ◌-◌, ◌^◌};
ghost use Rattle.mpi_law.specs.Local.Effects.{local_after};
ghost use Rattle.central_ranks.specs.Effects as effects;
ghost use Rattle.central_ranks.specs.Effects.{BindsFree};

use bind_tab::{Bound, Objects};
use mpi_group::Group;
use mpi_law::Effect;

/// How many messages a rank has sent, from how many before.
pub(crate) fn sends_after(sends: u64, effect: &Effect<u16>) -> u64
    requires { sends < 2 ^ 64 - 1 }
    ensures { result ≡ effects.sends_after sends effect.now }
{
    match effect {
        Effect::Sends(_) => sends + 1,
        _ => sends,
    }
}

/// How many receives a rank has posted, from how many before.
pub(crate) fn posts_after(receives: u64, effect: &Effect<u16>) -> u64
    requires { receives < 2 ^ 64 - 1 }
    ensures { result ≡ effects.posts_after receives effect.now }
{
    match effect {
        Effect::Receives(_) | Effect::Posts { .. } => receives + 1,
        _ => receives,
    }
}

/// Carries out what an effect does to a rank's names and sessions, where the rank has posted so many
/// receives before.
///
/// There is room for one name and one session more, fewer than the greatest `u64` sessions were opened and
/// receives posted, and the name that it binds is neither bound nor reserved.
pub(crate) fn carry_out(objects: &mut Objects, receives: u64, effect: Effect<u16>)
    requires room { 1 ≤ objects.old.spare }
    requires opened { objects.old.local.opened < 2 ^ 64 - 1 }
    requires receives { receives < 2 ^ 64 - 1 }
    requires free { BindsFree objects.old.local.names effect }
    ensures { objects.new.local ≡ local_after receives objects.old.local effect }
{
    match effect {
        Effect::Opens(target) => objects.open(target),
        Effect::Groups {
            target,
            members,
            session,
        } => objects.bind(target, Bound::Group(Group::of(members), session)),
        Effect::Joins(asked) => objects.hold(asked.target),
        Effect::Ends { session, .. } => objects.end_session(session),
        Effect::Posts { target, .. } => objects.bind(target, Bound::Request(receives + 1)),
        Effect::NullPosts(target) => objects.bind(target, Bound::Request(0)),
        Effect::Ungroups(name) | Effect::Frees { name, .. } | Effect::Completes { name, .. } => {
            objects.unbind(&name)
        }
        Effect::Says(_) | Effect::Sends(_) | Effect::Receives(_) | Effect::Awaits(_) => {}
    }
}
