//! Sessions that are opened and closed.
use session_tab::{SessionId, Sessions};

#[test]
fn a_table_begins_with_no_session(rt: HostRuntime) {
    let sessions = Sessions::none(rt.alloc());
    assert_eq!(rt; sessions.count(), 0);
    assert!(rt; !sessions.is_live(SessionId { slot: 0, serial: 0 }));
}

#[test]
fn sessions_are_live_from_add_to_close(rt: HostRuntime) {
    let mut sessions = Sessions::none(rt.alloc());
    sessions.reserve().expect(&rt, "memory");
    let first = sessions.add();
    sessions.reserve().expect(&rt, "memory");
    let second = sessions.add();
    assert_eq!(rt; first.serial, 1);
    assert_eq!(rt; second.serial, 2);
    assert_eq!(rt; sessions.count(), 2);
    assert!(rt; sessions.is_live(first) && sessions.is_live(second));
    assert!(rt; sessions.close(first));
    assert!(rt; !sessions.is_live(first) && sessions.is_live(second));
    assert!(rt; !sessions.close(first));
    assert_eq!(rt; sessions.count(), 2);
}

#[test]
fn a_slot_is_used_again_under_a_new_serial(rt: HostRuntime) {
    let mut sessions = Sessions::none(rt.alloc());
    sessions.reserve().expect(&rt, "memory");
    let old = sessions.add();
    assert!(rt; sessions.close(old));
    sessions.reserve().expect(&rt, "memory");
    let new = sessions.add();
    assert_eq!(rt; new.slot, old.slot);
    assert_eq!(rt; new.serial, 2);
    assert!(rt; new != old);
    assert!(rt; sessions.is_live(new) && !sessions.is_live(old));
    assert!(rt; !sessions.close(old) && sessions.is_live(new));
}

#[test]
fn a_session_is_closed_by_its_serial(rt: HostRuntime) {
    let mut sessions = Sessions::none(rt.alloc());
    assert!(rt; !sessions.close_serial(0));
    sessions.reserve().expect(&rt, "memory");
    let first = sessions.add();
    sessions.reserve().expect(&rt, "memory");
    let second = sessions.add();
    assert!(rt; sessions.close_serial(1));
    assert!(rt; !sessions.is_live(first) && sessions.is_live(second));
    assert!(rt; !sessions.close_serial(1));
    assert!(rt; !sessions.close_serial(3));
    assert_eq!(rt; sessions.count(), 2);
}
