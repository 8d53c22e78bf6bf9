//! Messages and receives of ranks 0, 1 and 2 on two communicators.
use central_comms::Comms;
use central_mail::{Mail, Message, Receive};
use mpi_base::{ErrClass, Members, Payload, Reply};
use std::alloc::Global;
use std::process::Abort;

/// The communicator at place 0 has the members 2, 0 and 1, that at place 1 the members 0 and 1.
fn two_comms(rt: &impl Abort, alloc: Global) -> Comms {
    let mut comms = Comms::none(alloc);
    for (ctx, ranks) in [(3, &[2, 0, 1][..]), (4, &[0, 1][..])] {
        let mut members = Members::none();
        for rank in ranks {
            members.push(*rank);
        }
        let sessions = [5, 6, 7].to_vec(alloc).expect(rt, "memory");
        comms.add(ctx, members, sessions).expect(rt, "memory");
    }
    comms
}

fn send(rt: &impl Abort, mail: &mut Mail, comm: u16, from: u16, number: u64, tag: u16) {
    let message = Message {
        comm,
        from,
        to: 1,
        tag,
        number,
        payload: Payload::new(b"abc").expect(rt, "short"),
    };
    mail.send(message).expect(rt, "memory");
}

fn post(rt: &impl Abort, mail: &mut Mail, number: u64, source: Option<u16>, room: u32) {
    let receive = Receive {
        rank: 1,
        number,
        comm: 0,
        source,
        tag: None,
        room,
    };
    mail.post(receive).expect(rt, "memory");
}

#[test]
fn messages_of_one_sender_are_taken_in_order(rt: HostRuntime) {
    let comms = two_comms(&rt, rt.alloc());
    let mut mail = Mail::none(rt.alloc());
    send(&rt, &mut mail, 0, 2, 1, 7);
    send(&rt, &mut mail, 0, 2, 2, 8);
    send(&rt, &mut mail, 1, 0, 1, 7);
    assert!(rt; mail.is_matched_out(&comms));
    post(&rt, &mut mail, 1, None, 3);
    post(&rt, &mut mail, 2, Some(0), 2);
    for (receive, from, sent, may) in [
        (1, 2, 1, true),
        (1, 2, 2, false),
        (2, 2, 1, false),
        (1, 0, 1, false),
        (3, 2, 1, false),
        (1, 2, 3, false),
    ] {
        assert_eq!(rt;
            mail.can_take(&comms, 1, receive, from, sent),
            may,
            "receive {receive}, message {sent} of {from}"
        );
    }
    assert!(rt; !mail.is_matched_out(&comms) && mail.owed(&comms, 1, 1).is_none());
    mail.take(1, 1, 2, 1);
    assert!(rt; mail.can_take(&comms, 1, 2, 2, 2) && !mail.can_take(&comms, 1, 1, 2, 2));
    let reply = Reply::Received {
        source: Some(0),
        tag: Some(7),
        payload: Payload::new(b"abc").expect(&rt, "short"),
    };
    assert!(rt; mail.owed(&comms, 1, 1) == Some(reply));
    mail.take(1, 2, 2, 2);
    assert!(rt; mail.owed(&comms, 1, 2) == Some(Reply::Refused(ErrClass::Truncate)));
    assert!(rt; mail.is_matched_out(&comms) && !mail.has_waiting(0, 1));
}

#[test]
fn what_is_left_on_a_communicator_is_dropped(rt: HostRuntime) {
    let comms = two_comms(&rt, rt.alloc());
    let mut mail = Mail::none(rt.alloc());
    send(&rt, &mut mail, 0, 2, 1, 7);
    send(&rt, &mut mail, 0, 0, 1, 7);
    send(&rt, &mut mail, 1, 0, 2, 7);
    assert_eq!(rt; mail.left_on(0, 1), 2);
    assert_eq!(rt; mail.left_on(1, 1), 1);
    assert_eq!(rt; mail.left_on(0, 0), 0);
    post(&rt, &mut mail, 1, Some(0), 3);
    assert!(rt; mail.has_waiting(0, 1) && !mail.has_waiting(1, 1) && !mail.has_waiting(0, 0));
    assert!(rt; mail.can_take(&comms, 1, 1, 2, 1));
    mail.drop_left(0, 1);
    assert!(rt; !mail.can_take(&comms, 1, 1, 2, 1));
    assert_eq!(rt; mail.left_on(0, 1), 0);
    assert_eq!(rt; mail.left_on(1, 1), 1);
}

#[test]
fn the_last_is_taken_out_again(rt: HostRuntime) {
    let comms = two_comms(&rt, rt.alloc());
    let mut mail = Mail::none(rt.alloc());
    mail.unsend();
    mail.unpost();
    send(&rt, &mut mail, 0, 2, 1, 7);
    post(&rt, &mut mail, 1, None, 3);
    send(&rt, &mut mail, 0, 2, 2, 7);
    post(&rt, &mut mail, 2, None, 3);
    mail.unsend();
    mail.unpost();
    assert_eq!(rt; mail.left_on(0, 1), 1);
    assert!(rt; mail.can_take(&comms, 1, 1, 2, 1));
    mail.unpost();
    assert!(rt; mail.is_matched_out(&comms) && !mail.has_waiting(0, 1));
    post(&rt, &mut mail, 1, None, 3);
    assert!(rt; mail.can_take(&comms, 1, 1, 2, 1));
    mail.unsend();
    assert!(rt; mail.is_matched_out(&comms));
    assert_eq!(rt; mail.left_on(0, 1), 0);
}
