//! Scripts of two ranks, as an example.
use mpi_base::{Name, Op};
use mpi_law::{Scripts, THREADS};
use std::process::Abort;

fn session(rt: &impl Abort, target: &[u8]) -> Op {
    Op::Session(Name::new(target).expect(rt, "a name"))
}

#[test]
fn operations_stand_in_their_scripts(rt: HostRuntime) {
    let mut scripts = Scripts::none(rt.alloc(), 2).expect(&rt, "memory");
    assert_eq!(rt; scripts.total(), 0);
    scripts.push(0, 0, session(&rt, b"a")).expect(&rt, "memory");
    scripts.push(0, 0, session(&rt, b"b")).expect(&rt, "memory");
    scripts.push(0, 0, session(&rt, b"c")).expect(&rt, "memory");
    scripts.push(1, 7, session(&rt, b"d")).expect(&rt, "memory");
    assert_eq!(rt; scripts.total(), 4);
    for rank in 0..2 {
        for thread in 0..THREADS {
            let count = match (rank, thread) {
                (0, 0) => 3,
                (1, 7) => 1,
                _ => 0,
            };
            assert_eq!(rt; scripts.len(rank, thread), count);
        }
    }
    assert!(rt; *scripts.op(0, 0, 0) == session(&rt, b"a"));
    assert!(rt; *scripts.op(0, 0, 1) == session(&rt, b"b"));
    assert!(rt; *scripts.op(0, 0, 2) == session(&rt, b"c"));
    assert!(rt; *scripts.op(1, 7, 0) == session(&rt, b"d"));
}
