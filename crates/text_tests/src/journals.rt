//! Lines of a journal, as examples.
use history_text::{Line, read_entry, write_entry};
use mpi_base::{
    Act, Brief, Choice, Entry, ErrClass, Key, Kind, Matched, Members, Name, Op, Payload, Reply,
    Said, SrcArg, StringTag,
};
use std::process::Abort;

/// Whether the line is read as an entry that is written as this line.
fn reads_back(line: &[u8]) -> bool {
    let Some(entry) = read_entry(line) else {
        return false;
    };
    let mut out = Line::new();
    write_entry(&entry, &mut out);
    out.as_slice() == line
}

#[test]
fn one_creation_reads_back(rt: HostRuntime) {
    for line in [
        b"0 call 0 session s => ok".as_slice(),
        b"0 call 0 pset s mpi://WORLD -> g => group [0,1]",
        b"0 call 0 create g \"t\" -> c",
        b"1 call 0 session s => ok",
        b"1 call 0 pset s mpi://WORLD -> g => group [0,1]",
        b"1 call 0 create g \"t\" -> c",
        b"0 deliver 1 up 0 zero from \"t\" [0,1]",
        b"0 settle from \"t\" [0,1] # ready",
        b"1 deliver 0 down 0 ready from \"t\" [0,1]",
        b"0 offer from \"t\" [0,1] # own",
        b"1 offer from \"t\" [0,1] # own",
        b"0 deliver 1 up 1 own from \"t\" [0,1]",
        b"0 settle from \"t\" [0,1] # pick ctx=1",
        b"1 deliver 0 down 1 ctx=1 from \"t\" [0,1]",
        b"0 answer 0 => comm ctx=1 rank=0 size=2",
        b"1 answer 0 => comm ctx=1 rank=1 size=2",
    ] {
        assert!(rt; reads_back(line));
    }
}

#[test]
fn a_retry_reads_back(rt: HostRuntime) {
    for line in [
        b"1 deliver 2 up 0 zero from \"t\" [1,2]".as_slice(),
        b"1 settle from \"t\" [1,2] # ready",
        b"1 offer from \"t\" [1,2] # own",
        b"0 deliver 1 up 0 zero from \"t\" [0,1]",
        b"0 settle from \"t\" [0,1] # ready",
        b"0 offer from \"t\" [0,1] # own",
        b"1 deliver 0 down 0 ready from \"t\" [0,1]",
        b"1 offer from \"t\" [0,1] # zero",
        b"0 deliver 1 up 1 zero from \"t\" [0,1]",
        b"0 settle from \"t\" [0,1] # retry",
        b"1 deliver 0 down 1 retry from \"t\" [0,1]",
        b"1 deliver 0 down 1 exhausted dup 1 0 [0,1]",
        b"0 settle dup 1 0 [0,1] # pick exhausted",
        b"0 answer 0 => err EXHAUSTED",
    ] {
        assert!(rt; reads_back(line));
    }
}

#[test]
fn an_early_message_reads_back(rt: HostRuntime) {
    for line in [
        b"1 deliver 0 down 1 ctx=1 from \"t\" [0,1,2]".as_slice(),
        b"1 answer 0 => comm ctx=1 rank=1 size=3",
        b"1 call 0 send c 2 7 abcd => ok",
        b"2 deliver 1 msg ctx=1 lane=0 number=1",
        b"2 deliver 0 down 1 ctx=1 from \"t\" [0,1,2]",
        b"2 answer 0 => comm ctx=1 rank=2 size=3",
        b"2 call 0 recv c 1 7 16 # match 1 1.1",
        b"2 answer 0 => recv src=1 tag=7 len=2 abcd",
        b"0 call 0 recv c 0 4 2 # match 1 0.1",
        b"0 answer 0 => err MPI_ERR_TRUNCATE",
        b"0 call 0 recv c null any 8 => recv src=null tag=any len=0 -",
        b"0 answer 0 => recv src=1 tag=4 len=0 -",
        b"0 deliver 1 msg ctx=1 lane=1 number=18446744073709551615 # match 3 1.18446744073709551615",
        b"0 call 0 irecv c any any 8 -> p # match 1 0.1 => ok",
    ] {
        assert!(rt; reads_back(line));
    }
}

#[test]
fn splits_and_frees_read_back(rt: HostRuntime) {
    for line in [
        b"0 call 0 split c undefined -1 -> d".as_slice(),
        b"0 deliver 1 share share 1 0 [0,1]",
        b"0 settle share 1 0 [0,1] # shared",
        b"1 deliver 0 shares share 1 0 [0,1]",
        b"2 settle split 1 0 [2,0] # pick ctx=2",
        b"1 settle group 1 5 [1,2] # ready",
        b"0 answer 0 => null",
        b"0 call 0 free c",
        b"0 leave 1",
        b"1 deliver 0 marker ctx=1",
        b"0 back 1 # drop 0",
        b"0 back 1 # drop 1",
        b"65535 back 65535 # drop 18446744073709551615",
        b"0 answer 0 => ok",
    ] {
        assert!(rt; reads_back(line));
    }
}

#[test]
fn replies_read_back(rt: HostRuntime) {
    for line in [
        b"0 call 0 psets s => psets 4".as_slice(),
        b"0 call 0 nth s 0 => name mpi://WORLD",
        b"0 call 0 info s app://a => info mpi_size=2",
        b"0 call 0 translate a [0,null,1] b => ranks [3,null,undefined]",
        b"0 call 0 compare a b => ident",
        b"0 call 0 ccompare a b => congruent",
        b"0 call 0 compare a b => similar",
        b"0 call 0 compare a b => unequal",
        b"0 call 0 size a => size 4",
        b"0 call 0 rank a => rank undefined",
        b"0 call 7 rank a => rank 0",
        b"0 call 0 dup x -> y => err MPI_ERR_COMM",
        b"0 call 0 finalize s => err BUSY",
        b"0 call 0 range_incl w [6:0:-2] -> b => group [6,4,2,0]",
        b"0 call 0 await b",
    ] {
        assert!(rt; reads_back(line));
    }
}

#[test]
fn what_belongs_to_another_step_is_refused(rt: HostRuntime) {
    for line in [
        b"0 offer from \"a\" [0]".as_slice(),
        b"0 offer from \"a\" [0] # ready",
        b"0 offer from \"a\" [0] # own => ok",
        b"0 settle from \"a\" [0]",
        b"0 settle from \"a\" [0] # own",
        b"0 settle from \"a\" [0] # shared",
        b"0 settle share 1 0 [0] # ready",
        b"0 back 1",
        b"0 back 1 # match 1 0.1",
        b"0 back 1 # drop 0 # drop 0",
        b"0 leave 1 # drop 0",
        b"0 call 0 dup c -> d # drop 0",
        b"0 call 0 recv c 0 4 2 => ok # match 1 0.1",
        b"0 call 0 dup c -> d # own",
        b"0 answer 0",
        b"0 answer 0 # match 1 0.1 => ok",
        b"0 deliver 1",
        b"0 deliver 1 marker ctx=1 => ok",
        b"0 deliver 1 down 0 own from \"t\" [0,1]",
    ] {
        assert!(rt; read_entry(line).is_none());
    }
}

#[test]
fn what_is_not_of_its_form_is_refused(rt: HostRuntime) {
    for line in [
        b"".as_slice(),
        b"0",
        b"00 leave 1",
        b"65536 leave 1",
        b"0 leave 01",
        b"0  leave 1",
        b" 0 leave 1",
        b"0 leave 1 ",
        b"0 leave 1 1",
        b"0 go 1",
        b"0 call 256 free c",
        b"0 call 0 free",
        b"0 call 0 nth s 2147483648",
        b"0 offer from \"a\" [0,0] # own",
        b"0 offer from \"a\" [16] # own",
        b"0 offer dup 0 [0] # own",
        b"0 deliver 1 msg ctx=1 number=1 lane=0",
        b"0 deliver 1 marker 1",
        b"0 call 0 recv c 0 4 2 # match 1 0,1",
        b"0 call 0 recv c 0 4 2 # match 1 0.01",
        b"0 call 0 recv c 0 4 2 # match 1 01",
        b"0 answer 0 => recv src=1 tag=7 len=3 abcd",
        b"0 answer 0 => recv src=null tag=7 len=0 -",
        b"0 answer 0 => recv src=1 tag=any len=0 -",
        b"0 answer 0 => recv src=null tag=any len=1 aa",
        b"0 answer 0 => err MPI_ERR",
        b"0 answer 0 => comm ctx=1 size=1 rank=0",
    ] {
        assert!(rt; read_entry(line).is_none());
    }
}

fn members(ranks: &[u16]) -> Members {
    let mut members = Members::none();
    for rank in ranks {
        members.push(*rank);
    }
    members
}

fn key(rt: &impl Abort, kind: Kind, parent: u16, number: u64, tag: &[u8]) -> Key {
    Key {
        parent,
        kind,
        number,
        tag: StringTag::new(tag).expect(rt, "a tag"),
        members: members(&[0, 1]),
    }
}

fn plain(rank: u16, act: Act) -> Entry {
    Entry {
        choice: Choice { rank, act },
        brief: None,
        said: None,
        matched: None,
        dropped: None,
        reply: None,
    }
}

#[test]
fn the_parts_of_a_delivery_are_told_apart(rt: HostRuntime) {
    let mut entry = plain(1, Act::Deliver { from: 0 });
    entry.brief = Some(Brief::Down {
        round: 3,
        said: Said::Picked(2),
        key: key(&rt, Kind::Group, 5, 7, b""),
    });
    entry.matched = Some(Matched {
        receive: 4,
        from: 6,
        number: 8,
    });
    let line = b"1 deliver 0 down 3 ctx=2 group 5 7 [0,1] # match 4 6.8";
    assert!(rt; read_entry(line) == Some(entry));
}

#[test]
fn the_parts_of_a_call_are_told_apart(rt: HostRuntime) {
    let comm = Name::new(b"c").expect(&rt, "a name");
    let op = Op::Recv(comm, SrcArg::At(1), Some(7), 16);
    let mut entry = plain(2, Act::Call { thread: 3, op });
    entry.matched = Some(Matched {
        receive: 4,
        from: 1,
        number: 9,
    });
    entry.reply = Some(Reply::Received {
        source: Some(1),
        tag: Some(7),
        payload: Payload::new(b"\xab\xcd").expect(&rt, "bytes"),
    });
    let line = b"2 call 3 recv c 1 7 16 # match 4 1.9 => recv src=1 tag=7 len=2 abcd";
    assert!(rt; read_entry(line) == Some(entry));
}

#[test]
fn a_settle_a_back_and_a_refusal_are_told(rt: HostRuntime) {
    let mut entry = plain(
        0,
        Act::Settle {
            key: key(&rt, Kind::From, 0, 0, b"t"),
        },
    );
    entry.said = Some(Said::Exhausted);
    let line = b"0 settle from \"t\" [0,1] # pick exhausted";
    assert!(rt; read_entry(line) == Some(entry));
    let mut entry = plain(4, Act::Back { ctx: 5 });
    entry.dropped = Some(6);
    assert!(rt; read_entry(b"4 back 5 # drop 6") == Some(entry));
    let mut entry = plain(7, Act::Answer { thread: 1 });
    entry.reply = Some(Reply::Refused(ErrClass::Busy));
    assert!(rt; read_entry(b"7 answer 1 => err BUSY") == Some(entry));
}
