//! Lines of a script, as examples.
use mpi_base::{Name, Op, Payload, PsetName, SrcArg};
use script_text::{FaultKind, Line, LineFault, is_blank, read_line, write_op};
use std::process::Abort;

fn name(rt: &impl Abort, text: &[u8]) -> Name {
    Name::new(text).expect(rt, "a name")
}

/// A line with these parts, the middle one so many times.
fn line_with(front: &[u8], middle: &[u8], times: usize, back: &[u8]) -> Line {
    let mut line = Line::new();
    let _ = line.try_extend_from_slice(front);
    for _ in 0..times {
        let _ = line.try_extend_from_slice(middle);
    }
    let _ = line.try_extend_from_slice(back);
    line
}

fn is_fault(line: &[u8], column: usize, kind: FaultKind) -> bool {
    match read_line(line) {
        Ok(_) => false,
        Err(fault) => fault == LineFault { column, kind },
    }
}

/// Whether the line is read as what is written as this text.
fn is_written(rt: &impl Abort, line: &[u8], text: &[u8]) -> bool {
    let op = read_line(line).ok().expect(rt, "a spelling");
    let mut out = Line::new();
    write_op(&op, &mut out);
    out.as_slice() == text
}

#[test]
fn the_first_fault_is_answered(rt: HostRuntime) {
    for (line, column, kind) in [
        (b"dup c > d".as_slice(), 7, FaultKind::UnknownWord),
        (b"dup c ->".as_slice(), 9, FaultKind::Missing),
        (b"dup c -> ".as_slice(), 10, FaultKind::Missing),
        (b"send c 0 1 0g".as_slice(), 12, FaultKind::BadHex),
        (b"send c 0 1 0aB".as_slice(), 12, FaultKind::BadHex),
        (b"send c 0 1 0ab".as_slice(), 12, FaultKind::BadHex),
        (b"free c c".as_slice(), 8, FaultKind::Extra),
        (b"dup 1c -> d".as_slice(), 5, FaultKind::BadName),
        (b"nth s 01".as_slice(), 7, FaultKind::BadNumber),
        (b"nth s 2147483648".as_slice(), 7, FaultKind::BadNumber),
        (
            b"session aaaaaaaaaaaaaaaaa".as_slice(),
            9,
            FaultKind::TooLong,
        ),
        (b"split c -0 1 -> d".as_slice(), 9, FaultKind::BadNumber),
        (b"split c any 1 -> d".as_slice(), 9, FaultKind::BadNumber),
        (b"create g \"a b\" -> c".as_slice(), 10, FaultKind::BadName),
        (b"create g \"a\"b\" -> c".as_slice(), 10, FaultKind::BadName),
        (b"info s mpi://WORLD?".as_slice(), 8, FaultKind::BadName),
        (b"incl g [1,] -> h".as_slice(), 8, FaultKind::BadNumber),
        (b"incl g [null] -> h".as_slice(), 8, FaultKind::BadNumber),
        (
            b"range_incl g [0:1] -> h".as_slice(),
            14,
            FaultKind::BadNumber,
        ),
        (
            b"translate g [0,undefined] h".as_slice(),
            13,
            FaultKind::BadNumber,
        ),
        (b"recv c null -1 8".as_slice(), 13, FaultKind::BadNumber),
        (b"session\ts".as_slice(), 1, FaultKind::UnknownWord),
        (b"session \ts".as_slice(), 9, FaultKind::BadName),
        (b"  sessions s".as_slice(), 3, FaultKind::UnknownWord),
        (b"".as_slice(), 1, FaultKind::Missing),
        (b"   ".as_slice(), 4, FaultKind::Missing),
        (b"nth 1 01 x".as_slice(), 5, FaultKind::BadName),
    ] {
        assert!(rt; is_fault(line, column, kind));
    }
}

#[test]
fn the_form_is_tested_before_the_length(rt: HostRuntime) {
    let odd = line_with(b"send c 0 1 ", b"a", 513, b"");
    assert!(rt; is_fault(odd.as_slice(), 12, FaultKind::BadHex));
    let long = line_with(b"send c 0 1 ", b"ab", 257, b"");
    assert!(rt; is_fault(long.as_slice(), 12, FaultKind::TooLong));
    let full = line_with(b"send c 0 1 ", b"ab", 256, b"");
    assert!(rt; is_written(&rt, full.as_slice(), full.as_slice()));
    let long = line_with(b"incl g [", b"0,", 16, b"0] -> h");
    assert!(rt; is_fault(long.as_slice(), 8, FaultKind::TooLong));
    let bad = line_with(b"incl g [", b"0,", 16, b"00] -> h");
    assert!(rt; is_fault(bad.as_slice(), 8, FaultKind::BadNumber));
    let full = line_with(b"incl g [", b"0,", 15, b"0] -> h");
    assert!(rt; is_written(&rt, full.as_slice(), full.as_slice()));
}

/// A line for each operation.
const OPERATIONS: &str = "\
session s
finalize s
psets s
nth s 0
info s mpi://WORLD
pset s app/ocean_1.x-y -> g
union g h -> u
intersect g h -> u
difference g h -> u
incl g [2,-1,0] -> h
excl g [] -> h
range_incl g [0:6:2,5:1:-2] -> h
range_excl g [] -> h
translate g [0,null,-2147483648] h
compare g h
size g
rank g
gfree g
create g \"\" -> c
dup c -> d
split c undefined -2 -> d
split c 3 2147483647 -> d
create_group c g 32767 -> d
group c -> g
ccompare c d
csize c
crank c
free c_1
send c null 0 -
send c 2147483647 7 00ff
recv c any any 256
irecv c null 3 0 -> r
wait r
await c";

#[test]
fn each_operation_is_read_and_written_again(rt: HostRuntime) {
    for line in OPERATIONS.lines() {
        assert!(rt; is_written(&rt, line.as_bytes(), line.as_bytes()), "{line}");
    }
    assert!(rt; is_written(&rt, b"  dup   c  ->  d", b"dup c -> d"));
    assert!(rt; is_written(&rt, b"free c  ", b"free c"));
}

#[test]
fn fields_stand_in_written_order(rt: HostRuntime) {
    let set = PsetName::new(b"mpi://SELF").expect(&rt, "a name of a process set");
    let op = Op::Pset(name(&rt, b"s"), set, name(&rt, b"g"));
    assert!(rt; read_line(b"pset s mpi://SELF -> g") == Ok(op));
    let op = Op::Dup(name(&rt, b"c"), name(&rt, b"d"));
    assert!(rt; read_line(b"dup c -> d") == Ok(op));
    let op = Op::Split(name(&rt, b"c"), Some(-1), 4, name(&rt, b"d"));
    assert!(rt; read_line(b"split c -1 4 -> d") == Ok(op));
    let bytes = Payload::new(&[0, 171]).expect(&rt, "a payload");
    let op = Op::Send(name(&rt, b"c"), Some(1), 5, bytes);
    assert!(rt; read_line(b"send c 1 5 00ab") == Ok(op));
    let op = Op::Recv(name(&rt, b"c"), SrcArg::At(2), Some(5), 9);
    assert!(rt; read_line(b"recv c 2 5 9") == Ok(op));
}

#[test]
fn blank_lines_have_no_operation(rt: HostRuntime) {
    for line in [
        b"".as_slice(),
        b"   ".as_slice(),
        b"#".as_slice(),
        b"  # dup c -> d".as_slice(),
    ] {
        assert!(rt; is_blank(line));
    }
    for line in [b"free c".as_slice(), b" a#".as_slice(), b"\t".as_slice()] {
        assert!(rt; !is_blank(line));
    }
}
