//! The process sets of two ranks, as rank 1 sees them.
ghost use Rattle.std.specs.Prelude.{◌<◌, ◌^◌, length};

use mpi_base::{Members, PsetName};
use pset_reg::Psets;
use std::process::Abort;

fn name(rt: &impl Abort, text: &[u8]) -> PsetName {
    PsetName::new(text).expect(rt, "a name of a process set")
}

fn members(ranks: &[u16]) -> Members {
    let mut members = Members::none();
    for rank in ranks {
        members.push(*rank);
    }
    members
}

/// Whether there are these sets, in this order, and no other.
fn are_shown(rt: &impl Abort, psets: &Psets, sets: &[(&[u8], &[u16])])
    requires rank { 1 < psets.now.ranks }
    requires few { length sets.now < 2 ^ 32 }
{
    assert_eq!(rt; psets.ranks(), 2);
    assert_eq!(rt; psets.size(), sets.len() as u32);
    for (place, (text, ranks)) in sets.iter().enumerate() {
        let name = name(rt, text);
        assert!(rt; psets.nth(place as u32) == Some(name.copy()));
        assert!(rt; psets.members_of(&name, 1) == Some(members(ranks)));
        let info = psets.info_of(&name, 1).expect(rt, "what is told of a set");
        assert_eq!(rt; info.len(), 1);
        assert_eq!(rt; u64::from(info.size_value()), ranks.len() as u64);
    }
    assert!(rt; psets.nth(sets.len() as u32).is_none());
    let unknown = name(rt, b"app://unknown");
    assert!(rt; psets.members_of(&unknown, 1).is_none());
    assert!(rt; psets.info_of(&unknown, 1).is_none());
}

#[test]
fn sets_stand_in_the_order_in_which_they_were_added(rt: HostRuntime) {
    let world: (&[u8], &[u16]) = (b"mpi://WORLD", &[0, 1]);
    let caller: (&[u8], &[u16]) = (b"mpi://SELF", &[1]);
    let ocean: (&[u8], &[u16]) = (b"app://ocean", &[0, 1]);

    let mut psets = Psets::start(rt.alloc(), 2).expect(&rt, "memory");
    are_shown(&rt, &psets, &[world, caller]);

    let name = name(&rt, b"app://ocean");
    let mut both = Members::none();
    both.push(0);
    both.push(1);
    assert!(rt; psets.add(name.copy(), both).expect(&rt, "memory"));
    are_shown(&rt, &psets, &[world, caller, ocean]);

    assert!(rt; !psets.add(name, Members::none()).expect(&rt, "memory"));
    are_shown(&rt, &psets, &[world, caller, ocean]);

    let copy = psets.try_copy(rt.alloc()).expect(&rt, "memory");
    are_shown(&rt, &copy, &[world, caller, ocean]);
}
