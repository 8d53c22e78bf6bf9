//! Names that are held, bound and taken out, and sessions that end.
use bind_tab::{Binds, Bound, Objects};
use mpi_base::{Members, Name};
use mpi_group::Group;
use session_tab::SessionId;
use std::process::Abort;

fn name(rt: &impl Abort, text: &[u8]) -> Name {
    Name::new(text).expect(rt, "a name")
}

fn pair(rt: &impl Abort) -> Group {
    let mut members = Members::none();
    assert!(rt; members.push(3) && members.push(1));
    Group::of(members)
}

fn bind(rt: &impl Abort, binds: &mut Binds, text: &[u8], what: Bound) {
    let name = name(rt, text);
    binds.reserve().expect(rt, "memory");
    assert!(rt; binds.hold(name.copy()));
    binds.fill(&name, what);
}

#[test]
fn a_name_is_held_then_bound_then_free(rt: HostRuntime) {
    let mut binds = Binds::none(rt.alloc());
    let session = SessionId { slot: 0, serial: 1 };
    let name = name(&rt, b"g");
    assert!(rt; binds.find(&name).is_none());
    binds.reserve().expect(&rt, "memory");
    assert!(rt; binds.hold(name.copy()));
    assert!(rt; binds.find(&name) == Some(&Bound::Reserved));
    binds.fill(&name, Bound::Group(pair(&rt), session.serial));
    assert!(rt; binds.find(&name) == Some(&Bound::Group(pair(&rt), session.serial)));
    binds.reserve().expect(&rt, "memory");
    assert!(rt; !binds.hold(name.copy()));
    assert!(rt; binds.unbind(&name) == Some(Bound::Group(pair(&rt), session.serial)));
    assert!(rt; binds.unbind(&name).is_none());
    binds.reserve().expect(&rt, "memory");
    binds.bind(name.copy(), Bound::Request(7));
    assert!(rt; binds.find(&name) == Some(&Bound::Request(7)));
}

#[test]
fn the_end_of_a_session_takes_out_what_is_of_it(rt: HostRuntime) {
    let mut binds = Binds::none(rt.alloc());
    let old = SessionId { slot: 0, serial: 1 };
    let new = SessionId { slot: 0, serial: 2 };
    bind(&rt, &mut binds, b"s", Bound::Session(old));
    bind(&rt, &mut binds, b"t", Bound::Session(new));
    bind(&rt, &mut binds, b"g", Bound::Group(pair(&rt), old.serial));
    bind(&rt, &mut binds, b"h", Bound::Group(pair(&rt), new.serial));
    bind(&rt, &mut binds, b"c", Bound::Comm(1, old.serial));
    bind(&rt, &mut binds, b"d", Bound::Comm(2, new.serial));
    bind(&rt, &mut binds, b"r", Bound::Request(1));
    bind(&rt, &mut binds, b"n", Bound::Reserved);
    binds.unbind_session(old.serial);
    for gone in [b"s", b"g", b"c"] {
        assert!(rt; binds.find(&name(&rt, gone.as_slice())).is_none());
    }
    assert!(rt; binds.find(&name(&rt, b"t")) == Some(&Bound::Session(new)));
    assert!(rt; binds.find(&name(&rt, b"h")) == Some(&Bound::Group(pair(&rt), new.serial)));
    assert!(rt; binds.find(&name(&rt, b"d")) == Some(&Bound::Comm(2, new.serial)));
    assert!(rt; binds.find(&name(&rt, b"r")) == Some(&Bound::Request(1)));
    assert!(rt; binds.find(&name(&rt, b"n")) == Some(&Bound::Reserved));
}

fn open(rt: &impl Abort, objects: &mut Objects, text: &[u8]) {
    let name = name(rt, text);
    objects.reserve().expect(rt, "memory");
    assert!(rt; objects.find(&name).is_none() && objects.opened() < u64::MAX);
    objects.open(name);
}

fn bind_object(rt: &impl Abort, objects: &mut Objects, text: &[u8], what: Bound) {
    let name = name(rt, text);
    objects.reserve().expect(rt, "memory");
    assert!(rt; objects.find(&name).is_none());
    objects.bind(name, what);
}

fn session_of(rt: &impl Abort, objects: &Objects, text: &[u8]) -> Option<u64> {
    match objects.find(&name(rt, text)) {
        Some(Bound::Session(id)) => Some(id.serial),
        _ => None,
    }
}

#[test]
fn an_ended_session_takes_its_objects_along(rt: HostRuntime) {
    let mut objects = Objects::none(rt.alloc());
    open(&rt, &mut objects, b"s");
    open(&rt, &mut objects, b"t");
    bind_object(&rt, &mut objects, b"c", Bound::Comm(1, 1));
    bind_object(&rt, &mut objects, b"d", Bound::Comm(2, 2));
    assert_eq!(rt; session_of(&rt, &objects, b"s"), Some(1));
    objects.end_session(1);
    assert_eq!(rt; session_of(&rt, &objects, b"s"), None);
    assert_eq!(rt; session_of(&rt, &objects, b"t"), Some(2));
    assert!(rt; objects.find(&name(&rt, b"c")).is_none());
    assert!(rt; objects.find(&name(&rt, b"d")) == Some(&Bound::Comm(2, 2)));
    assert_eq!(rt; objects.opened(), 2);
    open(&rt, &mut objects, b"s");
    assert_eq!(rt; session_of(&rt, &objects, b"s"), Some(3));
}

#[test]
fn a_name_is_reserved_then_bound_then_free(rt: HostRuntime) {
    let mut objects = Objects::none(rt.alloc());
    let name = name(&rt, b"n");
    objects.reserve().expect(&rt, "memory");
    assert!(rt; objects.find(&name).is_none());
    objects.hold(name.copy());
    assert!(rt; objects.find(&name) == Some(&Bound::Reserved));
    objects.fill(&name, Bound::Request(7));
    assert!(rt; objects.find(&name) == Some(&Bound::Request(7)));
    objects.unbind(&name);
    assert!(rt; objects.find(&name).is_none());
}
