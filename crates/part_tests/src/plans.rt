//! What a rank is refused for what its tables hold.
use bind_tab::{Bound, Objects};
use comm_tab::CommTab;
use mpi_base::{ErrClass, Members, Name, Op, Payload, Reply, StringTag};
use mpi_group::Group;
use mpi_law::{Effect, Origin, Setting};
use mpi_protocol::Waits;
use pset_reg::Psets;
use rank_plan::{Surroundings, key_of};
use rank_rows::Threads;
use session_tab::SessionId;
use std::process::Abort;

fn name(rt: &impl Abort, text: &[u8]) -> Name {
    Name::new(text).expect(rt, "a name")
}

fn tag(rt: &impl Abort, text: &[u8]) -> StringTag {
    StringTag::new(text).expect(rt, "a tag")
}

fn alone() -> Members {
    let mut members = Members::none();
    members.push(1);
    members
}

fn send(rt: &impl Abort, to: u32) -> Op {
    let payload = Payload::new(b"x").expect(rt, "bytes");
    Op::Send(name(rt, b"c"), Some(to), 0, payload)
}

fn create(rt: &impl Abort, text: &[u8]) -> Op {
    Op::Create(name(rt, b"g"), tag(rt, text), name(rt, b"d"))
}

fn bind(rt: &impl Abort, objects: &mut Objects, text: &[u8], what: Bound) {
    let name = name(rt, text);
    objects.reserve().expect(rt, "memory");
    assert!(rt; objects.find(&name).is_none());
    objects.bind(name, what);
}

fn refusal(effect: &Effect<u16>) -> Option<ErrClass> {
    match effect {
        Effect::Says(Reply::Refused(class)) => Some(*class),
        _ => None,
    }
}

#[test]
fn calls_are_refused_for_what_the_tables_hold(rt: HostRuntime) {
    let setting = Setting {
        ranks: 2,
        contexts: 3,
        psets: Psets::start(rt.alloc(), 2).expect(&rt, "memory"),
    };
    let mut objects = Objects::none(rt.alloc());
    for (text, what) in [
        (b"s", Bound::Session(SessionId { slot: 0, serial: 1 })),
        (b"z", Bound::Session(SessionId { slot: 1, serial: 2 })),
        (b"g", Bound::Group(Group::of(alone()), 1)),
        (b"c", Bound::Comm(3, 1)),
    ] {
        bind(&rt, &mut objects, text, what);
    }
    let mut comms = CommTab::none(rt.alloc(), 1);
    comms.reserve().expect(&rt, "memory");
    comms.add(3, alone(), 1);
    let mut threads = Threads::idle(rt.alloc()).expect(&rt, "memory");
    let origin = Origin::Grouped {
        group: alone(),
        tag: tag(&rt, b"t"),
    };
    threads.call(
        0,
        Waits::Creation {
            key: key_of(&comms, &origin),
            target: name(&rt, b"e"),
            session: 1,
        },
    );
    let around = Surroundings {
        rank: 1,
        setting: &setting,
        objects: &objects,
        comms: &comms,
        threads: &threads,
    };
    for (op, class) in [
        (send(&rt, 0), None),
        (send(&rt, 1), Some(ErrClass::Rank)),
        (create(&rt, b"t"), Some(ErrClass::Busy)),
        (create(&rt, b"u"), None),
        (Op::Finalize(name(&rt, b"s")), Some(ErrClass::Busy)),
        (Op::Finalize(name(&rt, b"z")), None),
    ] {
        assert_eq!(rt; refusal(&around.effect(&op)), class);
    }
}
