//! A thread that splits a communicator, and two receives.
use mpi_base::{Key, Kind, Members, Msg, Name, Payload, StringTag};
use mpi_protocol::Waits;
use rank_rows::{Receives, Threads};
use std::process::Abort;

fn key(rt: &impl Abort, kind: Kind) -> Key {
    Key {
        parent: 3,
        kind,
        number: 0,
        tag: StringTag::new(b"").expect(rt, "a tag"),
        members: Members::none(),
    }
}

fn message(rt: &impl Abort, number: u64) -> Msg {
    Msg {
        ctx: 3,
        lane: 0,
        from: 1,
        source: 0,
        tag: 9,
        number,
        payload: Payload::new(b"x").expect(rt, "bytes"),
    }
}

#[test]
fn a_split_goes_on_under_the_key_of_a_class(rt: HostRuntime) {
    let mut threads = Threads::idle(rt.alloc()).expect(&rt, "memory");
    let exchange = key(&rt, Kind::Share);
    let class = key(&rt, Kind::Split);
    threads.call(
        2,
        Waits::Creation {
            key: exchange.copy(),
            target: Name::new(b"d").expect(&rt, "a name"),
            session: 5,
        },
    );
    for (thread, is_idle) in [(1, true), (2, false), (7, true), (8, false)] {
        assert_eq!(rt; threads.is_idle(thread), is_idle, "thread {thread}");
    }
    threads.go_on(&exchange, Some(class.copy()));
    assert!(rt; threads.has_open(&class) && !threads.has_open(&exchange));
    assert!(rt; threads.has_open_under(3) && threads.has_open_of(5));
    assert_eq!(rt; threads.session_of(&class), 5);
    threads.go_on(&class, None);
    assert!(rt; threads.has_open(&class));
    let _ = threads.take_waits(2);
    assert!(rt; threads.is_idle(2) && !threads.has_open(&class));
    assert_eq!(rt; threads.calls(2), 1);
}

#[test]
fn a_receive_takes_its_message_alone(rt: HostRuntime) {
    let mut receives = Receives::none(rt.alloc());
    for number in [1, 2] {
        receives.reserve().expect(&rt, "memory");
        receives.push(number, 16);
    }
    receives.take(2, message(&rt, 4));
    for (number, is_here, has_taken) in [(1, true, false), (2, true, true), (3, false, false)] {
        assert_eq!(rt;
            receives.find(number).is_some(),
            is_here,
            "receive {number}"
        );
        assert_eq!(rt; receives.has_taken(number), has_taken, "receive {number}");
    }
    receives.remove(2);
    assert!(rt; receives.find(1).is_some() && receives.find(2).is_none());
}
