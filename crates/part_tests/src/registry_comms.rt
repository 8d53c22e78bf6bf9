//! Two communicators with one context, one after the other, at ranks 0, 1 and 2; and numbers that pairs find.
use central_comms::{Comms, Pairs};
use mpi_base::Members;
use std::alloc::Global;
use std::process::Abort;

fn members(ranks: &[u16]) -> Members {
    let mut members = Members::none();
    for rank in ranks {
        members.push(*rank);
    }
    members
}

fn two_comms(rt: &impl Abort, alloc: Global) -> Comms {
    let mut comms = Comms::none(alloc);
    for (ctx, ranks, sessions) in [(3, [2, 0], [7, 5]), (4, [0, 1], [5, 6])] {
        let sessions = sessions.to_vec(alloc).expect(rt, "memory");
        comms
            .add(ctx, members(&ranks), sessions)
            .expect(rt, "memory");
    }
    comms
}

#[test]
fn a_communicator_is_live_at_a_member_until_it_gives_it_back(rt: HostRuntime) {
    let mut comms = two_comms(&rt, rt.alloc());
    assert_eq!(rt; comms.len(), 2);
    for (rank, ctx, place) in [
        (0, 3, Some(0)),
        (2, 3, Some(0)),
        (1, 3, None),
        (0, 4, Some(1)),
        (2, 4, None),
        (0, 5, None),
    ] {
        assert_eq!(rt;
            comms.place_of(rank, ctx),
            place,
            "rank {rank}, context {ctx}"
        );
        assert_eq!(rt; comms.is_in_use(rank, ctx), place.is_some());
    }
    assert_eq!(rt; comms.len(), 2);
    comms.give_back(0, 0).expect(&rt, "memory");
    assert_eq!(rt; comms.len(), 2);
    assert!(rt; comms.is_returned(0, 0) && !comms.is_returned(0, 2));
    assert!(rt; !comms.is_in_use(0, 3) && comms.is_in_use(2, 3));
    assert!(rt; !comms.has_left_of(2, 5) && comms.has_left_of(2, 7));
    assert!(rt; comms.has_left_of(0, 5));
}

#[test]
fn a_context_that_all_gave_back_comes_again(rt: HostRuntime) {
    let mut comms = two_comms(&rt, rt.alloc());
    for rank in [0, 2] {
        assert_eq!(rt; comms.len(), 2);
        assert!(rt; !comms.all_freed(0));
        comms.free(0, rank).expect(&rt, "memory");
    }
    for rank in [2, 0] {
        assert_eq!(rt; comms.len(), 2);
        assert!(rt; comms.all_freed(0));
        comms.give_back(0, rank).expect(&rt, "memory");
    }
    assert!(rt; !comms.is_in_use(2, 3) && !comms.has_left_of(2, 7));
    let sessions = [8].to_vec(rt.alloc()).expect(&rt, "memory");
    comms.add(3, members(&[2]), sessions).expect(&rt, "memory");
    assert_eq!(rt; comms.len(), 3);
    assert_eq!(rt; comms.place_of(2, 3), Some(2));
    assert_eq!(rt; comms.ctx(2), 3);
    assert_eq!(rt; comms.members(2).len(), 1);
    comms.drop_last();
    assert_eq!(rt; comms.place_of(2, 3), None);
}

#[test]
fn the_communicators_of_one_session_are_freed(rt: HostRuntime) {
    let mut comms = two_comms(&rt, rt.alloc());
    assert_eq!(rt; comms.len(), 2);
    for (place, rank, session) in [(0, 2, 7), (0, 0, 5), (0, 1, 7), (1, 1, 6)] {
        assert_eq!(rt;
            comms.session_at(place, rank),
            session,
            "place {place}, rank {rank}"
        );
    }
    for (rank, session) in [(0, 5), (2, 5), (1, 6)] {
        comms.free_session(rank, session).expect(&rt, "memory");
    }
    assert_eq!(rt; comms.len(), 2);
    assert!(rt; !comms.all_freed(0) && comms.all_freed(1));
    comms.free_session(2, 7).expect(&rt, "memory");
    assert_eq!(rt; comms.len(), 2);
    assert!(rt; comms.all_freed(0));
}

#[test]
fn a_pair_finds_the_number_that_was_given_last(rt: HostRuntime) {
    let mut pairs = Pairs::none(rt.alloc());
    for (first, second, number) in [(1, 2, 10), (2, 1, 20), (1, 2, 11), (3, 3, 30)] {
        pairs.insert(first, second, number).expect(&rt, "memory");
    }
    pairs.replace(2, 1, 21);
    pairs.replace(2, 2, 22);
    pairs.remove(3, 3);
    for (first, second, number) in [
        (1, 2, Some(11)),
        (2, 1, Some(21)),
        (2, 2, None),
        (3, 3, None),
    ] {
        assert_eq!(rt; pairs.get(first, second), number);
    }
}
