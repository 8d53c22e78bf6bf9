//! The box against two plain lists.
ghost use Rattle.std.specs.Prelude.{◌<◌, ◌≤◌};

use match_box::MatchBox;
use match_law::Posted;
use mpi_base::{Msg, Payload};
use std::alloc::Global;
use std::process::Abort;

fn message(rt: &impl Abort, ctx: u16, lane: u8, source: u16, tag: u16, number: u64) -> Msg {
    Msg {
        ctx,
        lane,
        from: source,
        source,
        tag,
        number,
        payload: Payload::new(b"").expect(rt, "a payload"),
    }
}

fn fits(receive: &Posted, msg: &Msg) -> bool {
    receive.ctx == msg.ctx
        && receive.lane == msg.lane
        && (receive.source.is_none() || receive.source == Some(msg.source))
        && (receive.tag.is_none() || receive.tag == Some(msg.tag))
}

/// The two lists in order, with nothing else.
#[derive(Drop)]
struct Plain {
    kept: Vec<Msg>,
    posted: Vec<Posted>,
}

impl Plain {
    fn none(alloc: Global) -> Plain {
        Plain {
            kept: Vec::new(alloc),
            posted: Vec::new(alloc),
        }
    }

    fn arrive(&mut self, rt: &impl Abort, msg: Msg) -> Option<u64> {
        for i in 0..self.posted.len() {
            if fits(&self.posted[i], &msg) {
                return Some(self.posted.remove(i).number);
            }
        }
        self.kept.push(msg).expect(rt, "memory");
        None
    }

    fn post(&mut self, rt: &impl Abort, receive: Posted) -> Option<u64> {
        for i in 0..self.kept.len() {
            if fits(&receive, &self.kept[i]) {
                return Some(self.kept.remove(i).number);
            }
        }
        self.posted.push(receive).expect(rt, "memory");
        None
    }

    fn drop_ctx(&mut self, ctx: u16) -> usize {
        let before = self.kept.len();
        self.kept.retain(|msg: &Msg| msg.ctx != ctx);
        before - self.kept.len()
    }

    fn posted(&self, ctx: u16) -> usize {
        self.posted.iter().filter(|r| r.ctx == ctx).count()
    }
}

/// Numbers as if by chance: each draw takes the state on by a linear step modulo 2 to the 64th, and
/// gives it without its lower 33 bits.
#[derive(Drop)]
struct Draws {
    state: u64,
}

impl Draws {
    fn next(&mut self) -> u64 {
        self.state = self
            .state
            .wrapping_mul(6_364_136_223_846_793_005)
            .wrapping_add(1_442_695_040_888_963_407);
        self.state >> 33
    }

    fn bit(&mut self) -> u8 {
        (self.next() % 2) as u8
    }
}

/// One call of both, and what it did: how many messages met a receive, and how many were dropped. It
/// takes a draw modulo 16 for the kind: 0 drops a context, 1 to 8 are messages, the others receives.
/// Draws modulo 2 follow for the context (1 or 2), the lane, the source and the tag; for a receive two
/// more, which are 1 for any source and any tag.
fn call(
    rt: &impl Abort,
    held: &mut MatchBox,
    plain: &mut Plain,
    draws: &mut Draws,
    number: u64,
) -> (usize, usize)
    requires count { held.old.count < number }
    ensures { held.new.count ≤ number }
{
    let kind = draws.next() % 16;
    let ctx = 1 + u16::from(draws.bit());
    let lane = draws.bit();
    let source = u16::from(draws.bit());
    let tag = u16::from(draws.bit());
    if kind == 0 {
        let dropped = plain.drop_ctx(ctx);
        assert_eq!(rt; held.drop_ctx(ctx) as usize, dropped, "at {number}");
        return (0, dropped);
    }
    held.reserve().expect(rt, "memory");
    if kind < 9 {
        let msg = message(rt, ctx, lane, source, tag, number);
        let took = held.arrive(msg.copy()).map(|m| m.0.number);
        assert_eq!(rt; took, plain.arrive(rt, msg), "at {number}");
        return (usize::from(took.is_some()), 0);
    }
    let receive = Posted {
        number,
        ctx,
        lane,
        source: if draws.bit() == 1 { None } else { Some(source) },
        tag: if draws.bit() == 1 { None } else { Some(tag) },
    };
    let took = held.post(receive).map(|m| m.number);
    assert_eq!(rt; took, plain.post(rt, receive), "at {number}");
    assert_eq!(rt; held.posted(ctx) as usize, plain.posted(ctx), "at {number}");
    (usize::from(took.is_some()), 0)
}

#[test]
fn two_hundred_calls_answer_as_two_lists_do(rt: HostRuntime) {
    let mut held = MatchBox::none(rt.alloc());
    let mut plain = Plain::none(rt.alloc());
    let mut draws = Draws { state: 3 };
    let mut met = 0usize;
    let mut dropped = 0usize;
    for number in 1..201u64 {
        let did = call(&rt, &mut held, &mut plain, &mut draws, number);
        met = met.saturating_add(did.0);
        dropped = dropped.saturating_add(did.1);
    }
    assert_eq!(rt; met, 71);
    assert_eq!(rt; dropped, 33);
}
