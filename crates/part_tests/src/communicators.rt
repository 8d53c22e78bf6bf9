//! The communicators of rank 1.
use comm_law::CommStage;
use comm_tab::CommTab;
use mpi_base::Members;

fn members(ranks: &[u16]) -> Members {
    let mut members = Members::none();
    for rank in ranks {
        members.push(*rank);
    }
    members
}

#[test]
fn a_context_is_used_again_under_a_new_serial(rt: HostRuntime) {
    let mut comms = CommTab::none(rt.alloc(), 1);
    comms.reserve().expect(&rt, "memory");
    comms.marker(3, 0);
    assert!(rt; comms.is_noted(3, 0) && comms.find(3).is_none() && !comms.all_marked(3));

    comms.reserve().expect(&rt, "memory");
    assert_eq!(rt; comms.add(3, members(&[0, 1]), 7), 1);
    assert_eq!(rt; comms.count_call(3), 0);
    assert_eq!(rt; comms.count_call(3), 1);
    comms.mark_free(3);
    assert!(rt; !comms.all_marked(3));
    comms.leave(3);
    assert!(rt; comms.all_marked(3));
    comms.remove(3);
    assert!(rt; comms.rows().is_empty() && !comms.has_serial(1) && !comms.is_noted(3, 0));

    comms.reserve().expect(&rt, "memory");
    assert_eq!(rt; comms.add(3, members(&[1, 2]), 7), 2);
    assert_eq!(rt; comms.count_call(3), 0);
}

#[test]
fn the_communicators_of_one_session_are_freed(rt: HostRuntime) {
    let mut comms = CommTab::none(rt.alloc(), 1);
    comms.reserve().expect(&rt, "memory");
    comms.add(3, members(&[0, 1]), 7);
    comms.reserve().expect(&rt, "memory");
    comms.add(4, members(&[1]), 8);
    comms.free_session(7);
    for (ctx, stage) in [
        (3, Some(CommStage::Freed)),
        (4, Some(CommStage::Live)),
        (5, None),
    ] {
        assert_eq!(rt;
            comms.find(ctx).map(|row| row.stage),
            stage,
            "context {ctx}"
        );
    }
    for (session, is_there) in [(7, true), (8, true), (9, false)] {
        assert_eq!(rt; comms.has_session(session), is_there, "session {session}");
    }
    for (serial, is_there) in [(0, false), (1, true), (2, true), (3, false)] {
        assert_eq!(rt; comms.has_serial(serial), is_there, "serial {serial}");
    }
}

#[test]
fn each_communicator_with_a_context_changes(rt: HostRuntime) {
    let mut comms = CommTab::none(rt.alloc(), 1);
    comms.reserve().expect(&rt, "memory");
    comms.add(3, members(&[0, 1]), 7);
    comms.reserve().expect(&rt, "memory");
    comms.add(3, members(&[1, 2]), 8);
    comms.mark_free(4);
    comms.leave(4);
    for stage in [CommStage::Live, CommStage::Freed, CommStage::Left] {
        assert!(rt; comms.rows().iter().all(|row| row.stage == stage));
        if stage == CommStage::Live {
            comms.mark_free(3);
        } else {
            comms.leave(3);
        }
    }
    assert_eq!(rt; comms.rows().len(), 2);
    comms.remove(3);
    assert!(rt; comms.rows().is_empty());
}
