//! Two ranks that call and are answered.
ghost use Rattle.std.specs.Prelude.{◌≡◌, replicate};
ghost use Rattle.mpi_law.specs.Registry.State.{blank_part};

use central_ranks::{Ranks, Wait};
use mpi_base::{Name, Payload};
use mpi_law::{Asked, Effect, Origin, Sending, THREADS};
use std::alloc::Global;
use std::process::Abort;

fn name(rt: &impl Abort, text: &[u8]) -> Name {
    Name::new(text).expect(rt, "a name")
}

fn two_ranks(rt: &impl Abort, alloc: Global) -> Ranks
    ensures { result.parts ≡ replicate 2 blank_part }
{
    Ranks::start(alloc, 2).expect(rt, "memory")
}

#[test]
fn ranks_start_with_nothing(rt: HostRuntime) {
    let ranks = two_ranks(&rt, rt.alloc());
    assert_eq!(rt; ranks.count(), 2);
    for (rank, thread, idle) in [
        (0, 0, true),
        (1, THREADS - 1, true),
        (0, THREADS, false),
        (2, 0, false),
    ] {
        assert_eq!(rt; ranks.count(), 2);
        assert_eq!(rt;
            ranks.is_idle(rank, thread),
            idle,
            "rank {rank}, thread {thread}"
        );
        assert_eq!(rt; ranks.wait(rank, thread).is_some(), idle);
        assert_eq!(rt; ranks.calls(rank, thread), 0);
        assert_eq!(rt; ranks.created_by(rank, thread), None);
    }
    assert!(rt; ranks.objects(1).is_some() && ranks.objects(2).is_none());
}

#[test]
fn a_creation_is_waited_for_and_binds_its_target(rt: HostRuntime) {
    let mut ranks = two_ranks(&rt, rt.alloc());
    let target = name(&rt, b"c");
    assert!(rt; !ranks.is_bound(1, &target));
    ranks.reserve(2).expect(&rt, "memory");
    ranks.reserve(1).expect(&rt, "memory");
    let asked = Asked {
        origin: Origin::Duplicated { comm: 0 },
        target: target.copy(),
        session: 1,
    };
    ranks.call(1, 3, Effect::Joins(asked), Wait::Creating(7));
    assert!(rt; ranks.is_idle(1, 2) && !ranks.is_idle(1, 3));
    assert_eq!(rt; ranks.calls(1, 3), 1);
    assert_eq!(rt; ranks.created_by(1, 3), Some(7));
    assert!(rt; matches!(ranks.wait(1, 3), Some(Wait::Creating(7))));
    assert!(rt; !ranks.is_bound(1, &target));
    ranks.bind(1, &target, 4, 1);
    ranks.answer(1, 3);
    assert!(rt; ranks.is_idle(1, 3) && ranks.is_bound(1, &target) && !ranks.is_bound(0, &target));
    ranks.unbind(1, &target);
    assert!(rt; !ranks.is_bound(1, &target));
    ranks.answer(2, 3);
    ranks.answer(1, THREADS);
    assert_eq!(rt; ranks.calls(1, 3), 1);
}

#[test]
fn messages_and_receives_are_counted(rt: HostRuntime) {
    let mut ranks = two_ranks(&rt, rt.alloc());
    let payload = Payload::new(b"x").expect(&rt, "bytes");
    ranks.reserve(0).expect(&rt, "memory");
    let sending = Sending {
        comm: 0,
        to: 1,
        tag: 5,
        payload,
    };
    ranks.call(0, 0, Effect::Sends(sending), Wait::Idle);
    assert_eq!(rt; ranks.sends(0), 1);
    assert_eq!(rt; ranks.sends(1), 0);
    assert_eq!(rt; ranks.receives(0), 0);
    assert_eq!(rt; ranks.calls(0, 0), 1);
}
