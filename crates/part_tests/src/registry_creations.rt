//! A dup, a split and a creation from a group, at ranks 0, 1 and 2.
use central_creations::{Caller, CreationName, Creations, Outcome};
use mpi_base::{Members, Name, Shared1, StringTag};
use mpi_law::Origin;
use std::process::Abort;

fn members(ranks: &[u16]) -> Members {
    let mut members = Members::none();
    for rank in ranks {
        members.push(*rank);
    }
    members
}

fn tag(rt: &impl Abort) -> StringTag {
    StringTag::new(b"t").expect(rt, "a tag")
}

fn caller(rt: &impl Abort, rank: u16, share: Option<Shared1>) -> Caller {
    Caller {
        rank,
        thread: 1,
        target: Name::new(b"a").expect(rt, "a name"),
        session: 5 + u64::from(rank),
        share,
    }
}

#[test]
fn calls_join_until_a_creation_is_picked(rt: HostRuntime) {
    let mut creations = Creations::none(rt.alloc());
    let origin = Origin::Grouped {
        group: members(&[2, 0]),
        tag: tag(&rt),
    };
    for (rank, place) in [(0, 0), (2, 0), (0, 1)] {
        let name = creations.name_of(rank, &origin);
        assert_eq!(rt; creations.place_joinable(&name), place);
        creations
            .join(name.copy(), members(&[2, 0]), caller(&rt, rank, None))
            .expect(&rt, "memory");
        assert_eq!(rt; creations.all_called(0), rank == 2 || place == 1);
        assert!(rt; creations.is_named(place, &name));
        if rank == 2 {
            assert_eq!(rt; creations.place_pickable(&name), 0);
            creations
                .decide(0, members(&[2, 0]), Outcome::Made(3))
                .expect(&rt, "memory");
            assert_eq!(rt; creations.place_pickable(&name), 1);
        }
    }
    assert_eq!(rt; creations.len(), 2);
    assert!(rt; matches!(creations.outcome_for(0, 2), Some(Outcome::Made(3))));
    assert!(rt; creations.outcome_for(0, 1).is_none() && creations.outcome_for(1, 2).is_none());
    assert!(rt; creations.is_of_session(0, 2, 7) && creations.is_of_session(0, 1, 0));
    assert!(rt; creations.all_picked_or_short());
    let sessions = creations
        .sessions(rt.alloc(), 0, &members(&[2, 1, 0]))
        .expect(&rt, "memory");
    assert_eq!(rt; sessions.as_slice(), [7, 0, 5].as_slice());
    let called = creations.caller(0, 2).expect(&rt, "a caller");
    assert!(rt; called.session == 7 && called.thread == 1);
}

#[test]
fn a_split_has_classes_ordered_by_key(rt: HostRuntime) {
    let mut creations = Creations::none(rt.alloc());
    let shares = [
        (0, Some(1), 7),
        (1, None, 0),
        (2, Some(1), -7),
        (3, Some(1), 7),
    ];
    for (rank, colour, key) in shares {
        let share = Shared1 { colour, key };
        let name = creations.name_of(rank, &Origin::Divided { comm: 4, share });
        assert!(rt; name.is_same(&CreationName::nth_split(4, 0)));
        creations
            .join(name, members(&[0, 1, 2, 3]), caller(&rt, rank, Some(share)))
            .expect(&rt, "memory");
        assert_eq!(rt; creations.len(), 1);
    }
    assert!(rt; creations.all_called(0) && creations.is_under(0, 4));
    assert!(rt; creations.class_of(0, 0) == members(&[2, 0, 3]));
    assert!(rt; creations.class_of(0, 1) == members(&[]) && creations.is_uncoloured(0, 1));
    assert!(rt; !creations.all_picked_or_short());
    creations
        .decide(0, members(&[2, 0, 3]), Outcome::NoneFree)
        .expect(&rt, "memory");
    assert!(rt; creations.all_picked_or_short());
    let again = creations.name_of(1, &Origin::Duplicated { comm: 4 });
    assert!(rt; again.is_same(&CreationName::nth_dup(4, 1)));
}

fn called(
    rt: &impl Abort,
    creations: &mut Creations,
    rank: u16,
    origin: &Origin<u16>,
) -> CreationName {
    let name = creations.name_of(rank, origin);
    creations
        .join(name.copy(), members(&[0, 1]), caller(rt, rank, None))
        .expect(rt, "memory");
    name
}

#[test]
fn calls_are_counted_and_splits_found(rt: HostRuntime) {
    let mut creations = Creations::none(rt.alloc());
    let dup = Origin::Duplicated { comm: 4 };
    let split = Origin::Divided {
        comm: 4,
        share: Shared1::default(),
    };
    assert!(rt; called(&rt, &mut creations, 0, &dup).is_same(&CreationName::nth_dup(4, 0)));
    assert!(rt; called(&rt, &mut creations, 0, &split).is_same(&CreationName::nth_split(4, 1)));
    assert!(rt; called(&rt, &mut creations, 0, &dup).is_same(&CreationName::nth_dup(4, 2)));
    assert!(rt; called(&rt, &mut creations, 1, &dup).is_same(&CreationName::nth_dup(4, 0)));
    assert!(rt; called(&rt, &mut creations, 1, &split).is_same(&CreationName::nth_split(4, 1)));
    assert!(rt; called(&rt, &mut creations, 0, &split).is_same(&CreationName::nth_split(4, 3)));
    assert!(rt; creations.len() == 4 && creations.all_called(1) && !creations.all_called(3));
    assert_eq!(rt; creations.place_pickable(&CreationName::nth_split(4, 1)), 1);
    assert_eq!(rt; creations.place_pickable(&CreationName::nth_split(4, 3)), 3);
    assert_eq!(rt; creations.place_pickable(&CreationName::nth_split(3, 1)), 4);
}
