//! What one rank of two is refused.
ghost use Rattle.std.specs.Prelude.{false, if◌then◌else◌, ◌==◌, []};

use bind_tab::{Bound, Objects};
use call_plan::{Around, Call};
use mpi_base::{ErrClass, Members, Name, Op, Payload, Reply};
use mpi_law::{Effect, Origin, Setting};
use pset_reg::Psets;
use std::process::Abort;

/// One communicator, named 3; no creation is open.
#[derive(Drop)]
struct One {
    members: Members,
}

impl Around for One {
    ghost seen = { λ s. record {
      members = λ comm. if comm == 3 then s.members else [];
      busy = λ _. false;
      engaged = λ _. false;
    } };

    fn members(&self, comm: u16) -> Members {
        if comm == 3 {
            self.members.copy()
        } else {
            Members::none()
        }
    }

    fn size(&self, comm: u16) -> u16 {
        if comm == 3 { self.members.len() } else { 0 }
    }

    fn is_busy(&self, _origin: &Origin<u16>) -> bool {
        false
    }

    fn is_engaged(&self, _session: u64) -> bool {
        false
    }
}

fn name(rt: &impl Abort, text: &[u8]) -> Name {
    Name::new(text).expect(rt, "a name")
}

fn send(rt: &impl Abort, to: u32, tag: u32) -> Op {
    Op::Send(
        name(rt, b"c"),
        Some(to),
        tag,
        Payload::new(b"x").expect(rt, "bytes"),
    )
}

fn refusal(effect: &Effect<u16>) -> Option<ErrClass> {
    match effect {
        Effect::Says(Reply::Refused(class)) => Some(*class),
        _ => None,
    }
}

#[test]
fn arguments_are_refused_by_their_class(rt: HostRuntime) {
    let setting = Setting {
        ranks: 2,
        contexts: 3,
        psets: Psets::start(rt.alloc(), 2).expect(&rt, "memory"),
    };
    let mut objects = Objects::none(rt.alloc());
    objects.reserve().expect(&rt, "memory");
    objects.bind(name(&rt, b"c"), Bound::Comm(3, 1));
    let mut members = Members::none();
    members.push(1);
    let around = One { members };
    let call = Call {
        rank: 1,
        setting: &setting,
        objects: &objects,
        around: &around,
    };
    let split = Op::Split(name(&rt, b"c"), Some(-1), 0, name(&rt, b"d"));
    let dup = Op::Dup(name(&rt, b"d"), name(&rt, b"c"));
    for (op, class) in [
        (send(&rt, 0, 32_767), None),
        (send(&rt, 1, 32_767), Some(ErrClass::Rank)),
        (send(&rt, 0, 32_768), Some(ErrClass::Tag)),
        (split, Some(ErrClass::Arg)),
        (dup, Some(ErrClass::Comm)),
    ] {
        assert_eq!(rt; refusal(&call.effect(&op)), class);
    }
}
