//! One rank of an agreement, step by step.
ghost use Rattle.std.specs.Prelude.{◌≤◌};
ghost use Rattle.and_reduce.specs.Rooms.{room_of};

use agree_core::Agreements;
use agree_law::{Outcome, Verdict};
use and_reduce::Sent;
use ctx_mask::Mask;
use mpi_base::{Key, Kind, Members, Shared1, StringTag};
use std::process::Abort;

/// A key over ranks; keys of a kind are ordered by their number.
fn key(rt: &impl Abort, kind: Kind, number: u64, ranks: &[u16]) -> Key {
    let mut members = Members::none();
    for rank in ranks {
        members.push(*rank);
    }
    Key {
        parent: 0,
        kind,
        number,
        tag: StringTag::new(b"").expect(rt, "a tag"),
        members,
    }
}

/// A rank and what it has sent.
#[derive(Drop)]
struct Rank {
    part: Agreements<1>,
    out: Vec<Sent<1>>,
}

impl Rank {
    fn begin(&mut self, rt: &impl Abort, key: &Key) {
        self.part.reserve().expect(rt, "memory");
        self.out.reserve(16).expect(rt, "memory");
        self.part.begin(key, &mut self.out).expect(rt, "not open");
    }

    fn offer(&mut self, rt: &impl Abort, key: &Key) -> bool {
        self.part.reserve().expect(rt, "memory");
        self.out.reserve(16).expect(rt, "memory");
        assert!(rt; self.part.may_offer(key), "due");
        self.part.offer(key, &mut self.out)
    }

    fn up(&mut self, rt: &impl Abort, from: u16, key: &Key, round: u64, free: Option<u16>) {
        self.part.reserve().expect(rt, "memory");
        self.out.reserve(16).expect(rt, "memory");
        assert!(rt; self.part.may_take_offer(from, key, round), "taken");
        let mask = Mask::full(free.unwrap_or(0));
        self.part
            .take_offer(from, key, round, free.is_some(), &mask, &mut self.out);
    }

    fn settle(&mut self, rt: &impl Abort, key: &Key) -> Verdict {
        self.part.reserve().expect(rt, "memory");
        self.out.reserve(16).expect(rt, "memory");
        assert!(rt; self.part.may_settle(key), "whole");
        assert!(rt; self.part.round(key) < 9, "few rounds");
        self.part.settle(key, &mut self.out)
    }

    fn down(&mut self, rt: &impl Abort, from: u16, key: &Key, round: u64, verdict: Verdict) {
        self.part.reserve().expect(rt, "memory");
        self.out.reserve(16).expect(rt, "memory");
        assert!(rt; round < 9, "few rounds");
        assert!(rt;
            self.part.may_take_verdict(from, key, round, verdict),
            "taken"
        );
        self.part
            .take_verdict(from, key, round, verdict, &mut self.out);
    }

    fn begin_share(&mut self, rt: &impl Abort, key: &Key, share: (Option<i32>, i32)) {
        self.part.reserve().expect(rt, "memory");
        self.out.reserve(16).expect(rt, "memory");
        let (colour, order) = share;
        let share = Shared1 { colour, key: order };
        self.part.begin_share(key, share, &mut self.out);
    }

    fn share(&mut self, rt: &impl Abort, from: u16, key: &Key, share: (Option<i32>, i32)) {
        self.part.reserve().expect(rt, "memory");
        assert!(rt; self.part.may_take_share(from, key), "taken");
        let (colour, order) = share;
        self.part
            .take_share(from, key, Shared1 { colour, key: order });
    }

    /// The receivers of what was sent since the last call, as digits.
    fn sent(&mut self) -> u64 {
        let mut digits: u64 = 0;
        for sent in self.out.iter() {
            digits = digits.wrapping_mul(10).wrapping_add(u64::from(sent.to));
        }
        self.out.clear();
        digits
    }
}

#[test]
fn retry_where_a_lesser_key_waits(rt: HostRuntime) {
    let mut rank = Rank {
        part: Agreements::start(rt.alloc(), 1, 3),
        out: Vec::new(rt.alloc()),
    };
    let lesser = key(&rt, Kind::From, 1, &[0, 1]);
    let greater = key(&rt, Kind::From, 2, &[1, 2]);
    rank.begin(&rt, &lesser);
    rank.begin(&rt, &greater);
    rank.up(&rt, 2, &greater, 0, None);
    assert_eq!(rt; rank.settle(&rt, &greater), Verdict::Ready);
    rank.down(&rt, 0, &lesser, 0, Verdict::Ready);
    assert!(rt; !rank.offer(&rt, &greater));
    assert!(rt; rank.offer(&rt, &lesser));
    rank.up(&rt, 2, &greater, 1, Some(3));
    assert_eq!(rt; rank.settle(&rt, &greater), Verdict::Retry);
    rank.down(&rt, 0, &lesser, 1, Verdict::Context(1));
    assert!(rt; rank.part.outcome(&lesser) == Some(Outcome::Context(1)));
    assert!(rt; rank.offer(&rt, &greater));
    rank.up(&rt, 2, &greater, 2, Some(3));
    assert_eq!(rt; rank.settle(&rt, &greater), Verdict::Context(2));
    assert_eq!(rt; rank.sent(), 2_022);
}

#[test]
fn place_two_gathers_for_place_three(rt: HostRuntime) {
    let mut rank = Rank {
        part: Agreements::start(rt.alloc(), 2, 3),
        out: Vec::new(rt.alloc()),
    };
    let world = key(&rt, Kind::From, 0, &[0, 1, 2, 3]);
    rank.begin(&rt, &world);
    assert_eq!(rt; rank.out.len(), 0);
    rank.up(&rt, 3, &world, 0, None);
    assert_eq!(rt; rank.out.len(), 1);
    rank.down(&rt, 0, &world, 0, Verdict::Ready);
    assert!(rt; rank.offer(&rt, &world));
    rank.up(&rt, 3, &world, 1, Some(2));
    assert_eq!(rt; rank.sent(), 30);
}

/// Ranks as digits.
fn digits(members: &Members) -> u64 {
    let mut digits: u64 = 0;
    for place in 0..members.len() {
        let rank = members.get(place).unwrap_or(0);
        digits = digits.wrapping_mul(10).wrapping_add(u64::from(rank));
    }
    digits
}

/// The class of this rank, where it has all shares.
fn class_of(part: &mut Agreements<1>, key: &Key, out: &mut Vec<Sent<1>>) -> Option<Option<Key>>
    requires room { 1 ≤ part.old.spare }
    requires out { 16 ≤ room_of out.old }
{
    if part.may_settle_share(key) {
        return Some(part.settle_share(key, out));
    }
    None
}

/// The shares of ranks 2, 4, 6 and 8, the class of rank 2 in order, and who is sent something, as digits.
const SPLITS: [([(Option<i32>, i32); 4], u64, u64); 3] = [
    (
        [(Some(0), 5), (Some(1), 0), (Some(0), 5), (Some(0), 1)],
        826,
        4_688,
    ),
    (
        [(Some(7), -1), (Some(7), -2), (None, 0), (Some(7), -1)],
        428,
        4_684,
    ),
    (
        [(None, 3), (Some(0), 3), (Some(0), 3), (Some(0), 3)],
        0,
        468,
    ),
];

#[test]
fn a_class_is_ordered_by_key_and_old_rank(rt: HostRuntime) {
    let split = key(&rt, Kind::Share, 0, &[2, 4, 6, 8]);
    for (shares, wanted, sent) in &SPLITS {
        let mut rank = Rank {
            part: Agreements::start(rt.alloc(), 2, 3),
            out: Vec::new(rt.alloc()),
        };
        rank.begin_share(&rt, &split, shares[0]);
        rank.share(&rt, 4, &split, shares[1]);
        rank.share(&rt, 6, &split, shares[2]);
        rank.share(&rt, 8, &split, shares[3]);
        rank.part.reserve().expect(&rt, "memory");
        rank.out.reserve(16).expect(&rt, "memory");
        let class = class_of(&mut rank.part, &split, &mut rank.out).expect(&rt, "whole");
        let members = match class {
            Some(class) => class.members,
            None => Members::none(),
        };
        assert_eq!(rt; digits(&members), *wanted);
        assert_eq!(rt; rank.sent(), *sent);
    }
}
