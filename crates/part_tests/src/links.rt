//! Messages on the links of three ranks.
ghost use Rattle.std.specs.Prelude.{◌≡◌, ◌<◌};

use link_net::Links;
use mpi_base::{Msg, Payload};
use std::process::Abort;

fn message(rt: &impl Abort, number: u64) -> Msg {
    Msg {
        ctx: 1,
        lane: 0,
        from: 0,
        source: 0,
        tag: 7,
        number,
        payload: Payload::new(b"hello").expect(rt, "a payload"),
    }
}

/// The next message on a link has this number, or there is none.
fn is_popped(rt: &impl Abort, links: &mut Links<Msg>, from: u16, to: u16, number: Option<u64>)
    requires from { from < links.old.ranks }
    requires to { to < links.old.ranks }
    ensures { links.new.ranks ≡ links.old.ranks }
{
    assert_eq!(rt; links.head(from, to).map(|item| item.number), number);
    assert_eq!(rt; links.pop(from, to).map(|item| item.number), number);
}

#[test]
fn what_is_pushed_first_is_popped_first(rt: HostRuntime) {
    let mut links = Links::start(rt.alloc(), 3).expect(&rt, "memory");
    links.reserve(0, 2).expect(&rt, "memory");
    links.push(0, 1, message(&rt, 1));
    links.push(0, 1, message(&rt, 2));
    links.push(0, 2, message(&rt, 3));
    links.push(0, 0, message(&rt, 4));
    assert_eq!(rt; links.in_flight(), 4);
    is_popped(&rt, &mut links, 0, 0, Some(4));
    is_popped(&rt, &mut links, 0, 1, Some(1));
    is_popped(&rt, &mut links, 1, 0, None);
    is_popped(&rt, &mut links, 0, 2, Some(3));
    is_popped(&rt, &mut links, 0, 1, Some(2));
    is_popped(&rt, &mut links, 0, 1, None);
    is_popped(&rt, &mut links, 2, 2, None);
    assert_eq!(rt; links.in_flight(), 0);
}
