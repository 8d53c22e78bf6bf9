//! Gathers of keys with two to five members.
use agree_law::Verdict;
use and_reduce::{
    Gathers, Packet, ShareGathers, ShareList, is_child, is_first, is_member, member_at, parent_of,
    place_in,
};
use ctx_mask::Mask;
use mpi_base::{Key, Kind, Members, Shared1, StringTag};
use std::process::Abort;

fn key(rt: &impl Abort, kind: Kind, ranks: &[u16]) -> Key {
    let mut members = Members::none();
    for rank in ranks {
        members.push(*rank);
    }
    Key {
        parent: 0,
        kind,
        number: 0,
        tag: StringTag::new(b"").expect(rt, "a tag"),
        members,
    }
}

fn share(key: i32) -> Shared1 {
    Shared1 {
        colour: Some(1),
        key,
    }
}

#[test]
fn places_form_a_tree(rt: HostRuntime) {
    let key = key(&rt, Kind::From, &[2, 3, 5, 7, 9]);
    for (rank, place, parent) in [(3, 1, 0), (5, 2, 0), (7, 3, 2), (9, 4, 0)] {
        assert!(rt;
            is_member(&key, rank) && !is_first(&key, rank),
            "rank {rank}"
        );
        assert_eq!(rt; place_in(&key, rank), place);
        assert_eq!(rt; member_at(&key, place), rank);
        assert_eq!(rt; parent_of(place), parent);
        for other in 0..5 {
            assert_eq!(rt;
                is_child(other, place),
                other == parent,
                "{other} of {place}"
            );
        }
    }
    assert!(rt; is_first(&key, 2) && place_in(&key, 2) == 0 && !is_child(0, 0));
    assert!(rt; !is_member(&key, 4) && place_in(&key, 4) == 0 && member_at(&key, 5) == 0);
}

#[test]
fn a_round_has_a_verdict(rt: HostRuntime) {
    let mut gathers = Gathers::<1>::none(rt.alloc(), 3);
    let pair = key(&rt, Kind::From, &[4, 6]);
    let mut late = Mask::full(3);
    late.clear(1);
    for (round, own, contexts, verdict) in [
        (0, true, 1, Verdict::Ready),
        (1, true, 3, Verdict::Context(2)),
        (2, true, 1, Verdict::Exhausted),
        (3, false, 3, Verdict::Retry),
    ] {
        gathers.reserve().expect(&rt, "memory");
        gathers.next_round(&pair, round);
        gathers.reserve().expect(&rt, "memory");
        gathers.put(&pair, 0, true, late.copy());
        assert!(rt; gathers.has(&pair, 0) && !gathers.is_ready(&pair, 0));
        gathers.reserve().expect(&rt, "memory");
        gathers.put(&pair, 1, own, Mask::full(contexts));
        assert!(rt; gathers.is_ready(&pair, 0) && gathers.round(&pair) == round);
        assert_eq!(rt; gathers.verdict(&pair), verdict, "round {round}");
    }
    gathers.remove(&pair);
    assert!(rt; gathers.offers().is_empty() && gathers.round(&pair) == 0);
}

#[test]
fn offers_are_joined_in_a_tree(rt: HostRuntime) {
    let mut gathers = Gathers::<1>::none(rt.alloc(), 3);
    let four = key(&rt, Kind::From, &[0, 1, 2, 3]);
    let five = key(&rt, Kind::From, &[0, 1, 2, 3, 4]);
    for (place, own, contexts, is_four, is_five) in [
        (0, true, 3, false, false),
        (1, true, 2, false, false),
        (2, true, 3, true, false),
        (4, false, 1, true, true),
    ] {
        gathers.reserve().expect(&rt, "memory");
        gathers.put(&five, place, own, Mask::full(contexts));
        if place < 4 {
            gathers.reserve().expect(&rt, "memory");
            gathers.put(&four, place, own, Mask::full(contexts));
        }
        assert_eq!(rt; gathers.is_ready(&four, 0), is_four, "place {place}");
        assert_eq!(rt; gathers.is_ready(&five, 0), is_five, "place {place}");
    }
    let joined = gathers.joined(&four);
    assert!(rt; joined.own && joined.mask.has(2) && !joined.mask.has(3));
    let joined = gathers.joined(&five);
    assert!(rt; !joined.own && joined.mask.has(1) && !joined.mask.has(2));
    assert!(rt; !gathers.is_ready(&four, 2));
    gathers.reserve().expect(&rt, "memory");
    gathers.put(&four, 3, true, Mask::none());
    assert!(rt; gathers.is_ready(&four, 2) && !gathers.is_ready(&five, 2));
}

#[test]
fn shares_are_listed_in_order_of_place(rt: HostRuntime) {
    let mut gathers = ShareGathers::none(rt.alloc());
    let key = key(&rt, Kind::Share, &[3, 5, 6]);
    let mut wanted = ShareList::none();
    for number in [7, 8, 9] {
        assert!(rt; wanted.push(share(number)));
    }
    for (place, number) in [(2, 9), (0, 7), (1, 8)] {
        assert!(rt; gathers.share(&key, place).is_none() && !gathers.is_whole(&key));
        gathers.reserve().expect(&rt, "memory");
        gathers.put(&key, place, share(number));
    }
    assert!(rt; gathers.is_whole(&key) && gathers.list(&key) == wanted);
    assert_eq!(rt; gathers.shares().len(), 3);
    gathers.remove(&key);
    assert!(rt; !gathers.is_whole(&key) && gathers.list(&key).as_slice().is_empty());
    let packet = Packet::<1>::Shares {
        key,
        list: wanted.copy(),
    };
    match packet.copy() {
        Packet::Shares { list, .. } => assert!(rt; list == wanted),
        Packet::Up { .. } | Packet::Down { .. } | Packet::Share { .. } => assert!(rt; false),
    }
}
