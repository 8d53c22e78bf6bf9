//! Texts, short lists, error classes, keys and copies, as examples.
use mpi_base::{
    Act, Choice, Entry, ErrClass, Ints, Key, Kind, MOST_ITEMS, MOST_RANKS, Members, Msg, Name, Op,
    OutOfMemory, Payload, PsetName, RankArg, RankArgs, RankOut, RankOuts, Reply, StringTag,
    Triplet, Triplets,
};
use std::alloc::AllocError;
use std::process::Abort;

fn name(rt: &impl Abort, text: &[u8]) -> Name {
    Name::new(text).expect(rt, "a name")
}

fn tag(rt: &impl Abort, text: &[u8]) -> StringTag {
    StringTag::new(text).expect(rt, "a tag")
}

fn members(ranks: &[u16]) -> Members {
    let mut members = Members::none();
    for rank in ranks {
        members.push(*rank);
    }
    members
}

#[test]
fn names_have_their_form(rt: HostRuntime) {
    for text in [b"a".as_slice(), b"Z9_", b"abcdefghijklmnop"] {
        let name = name(&rt, text);
        assert_eq!(rt; name.bytes(), text);
        assert!(rt; name.copy() == name);
    }
    for text in [b"".as_slice(), b"1c", b"_a", b"a-b", b"abcdefghijklmnopq"] {
        assert!(rt; Name::new(text).is_none());
    }
}

#[test]
fn names_of_process_sets_have_their_form(rt: HostRuntime) {
    for text in [
        b"mpi://SELF".as_slice(),
        b"app://ocean",
        b"abcdefghijklmnopqrstuvwxyz-.0123",
    ] {
        let set = PsetName::new(text).expect(&rt, "a name of a process set");
        assert_eq!(rt; set.bytes(), text);
        assert!(rt; set.copy() == set);
    }
    for text in [b"".as_slice(), b"a b", b"abcdefghijklmnopqrstuvwxyz-.01234"] {
        assert!(rt; PsetName::new(text).is_none());
    }
}

#[test]
fn tags_have_their_form(rt: HostRuntime) {
    for text in [b"".as_slice(), b"!~", &[b'x'; 63]] {
        let tag = tag(&rt, text);
        assert_eq!(rt; tag.bytes(), text);
        assert!(rt; tag.copy() == tag);
    }
    for text in [&[b'x'; 64], b"a b".as_slice(), b"\"", b"\\", b"\x7f"] {
        assert!(rt; StringTag::new(text).is_none());
    }
}

#[test]
fn members_are_distinct_ranks(rt: HostRuntime) {
    let mut all = Members::none();
    assert!(rt; all.is_empty());
    for rank in 0..MOST_RANKS {
        let reversed = MOST_RANKS - 1 - rank;
        assert!(rt; all.push(reversed));
        assert!(rt; !all.push(reversed));
        assert_eq!(rt; all.len(), rank + 1);
        assert_eq!(rt; all.get(rank), Some(reversed));
        assert_eq!(rt; all.place_of(reversed), Some(rank));
    }
    assert!(rt; !all.push(MOST_RANKS));
    assert!(rt; !all.is_empty());
    assert_eq!(rt; all.get(MOST_RANKS), None);
    assert_eq!(rt; all.place_of(MOST_RANKS), None);
    assert!(rt; all.copy() == all);
}

#[test]
fn error_classes_have_numbers_and_texts(rt: HostRuntime) {
    for (class, number, text) in [
        (ErrClass::Session, 1, b"MPI_ERR_SESSION".as_slice()),
        (ErrClass::Group, 2, b"MPI_ERR_GROUP"),
        (ErrClass::Comm, 3, b"MPI_ERR_COMM"),
        (ErrClass::Rank, 4, b"MPI_ERR_RANK"),
        (ErrClass::Tag, 5, b"MPI_ERR_TAG"),
        (ErrClass::Arg, 6, b"MPI_ERR_ARG"),
        (ErrClass::Request, 7, b"MPI_ERR_REQUEST"),
        (ErrClass::Truncate, 8, b"MPI_ERR_TRUNCATE"),
        (ErrClass::Busy, 9, b"BUSY"),
        (ErrClass::Exhausted, 10, b"EXHAUSTED"),
    ] {
        assert_eq!(rt; class.number(), number);
        assert_eq!(rt; class.text().as_slice(), text);
    }
}

#[test]
fn keys_are_in_order(rt: HostRuntime) {
    let key = |parent, kind, number, text: &[u8], ranks: &[u16]| Key {
        parent,
        kind,
        number,
        tag: tag(&rt, text),
        members: members(ranks),
    };
    let keys = [
        key(0, Kind::From, 0, b"", &[0]),
        key(0, Kind::From, 0, b"", &[0, 2]),
        key(0, Kind::From, 0, b"", &[1]),
        key(0, Kind::From, 0, b"a", &[0]),
        key(0, Kind::From, 0, b"ab", &[0]),
        key(0, Kind::From, 1, b"", &[0]),
        key(0, Kind::Group, 0, b"", &[0]),
        key(0, Kind::Dup, 0, b"", &[0]),
        key(0, Kind::Split, 0, b"", &[0]),
        key(0, Kind::Share, 7, b"z", &[3]),
        key(1, Kind::From, 0, b"", &[0]),
    ];
    for (i, one) in keys.iter().enumerate() {
        for (j, other) in keys.iter().enumerate() {
            assert_eq!(rt; one.is_before(other), i < j);
            assert_eq!(rt; one.is_same(other), i == j);
        }
    }
}

#[test]
fn payloads_have_at_most_256_bytes(rt: HostRuntime) {
    for bytes in [b"".as_slice(), &[0, 255], &[7; 256]] {
        let payload = Payload::new(bytes).expect(&rt, "a payload");
        assert_eq!(rt; payload.bytes(), bytes);
        assert!(rt; payload.copy() == payload);
    }
    assert!(rt; Payload::new(&[7; 257]).is_none());
}

#[test]
fn numbers_are_listed(rt: HostRuntime) {
    let mut list = Ints::none();
    for _ in 0..MOST_ITEMS {
        assert!(rt; list.push(-5));
    }
    assert!(rt; !list.push(-5));
    assert_eq!(rt; list.as_slice(), [-5; MOST_ITEMS].as_slice());
    assert!(rt; list.copy() == list);
}

#[test]
fn ranks_to_be_translated_are_listed(rt: HostRuntime) {
    let mut list = RankArgs::none();
    for _ in 0..MOST_ITEMS {
        assert!(rt; list.push(RankArg::At(-1)));
    }
    assert!(rt; !list.push(RankArg::Null));
    assert_eq!(rt; list.as_slice(), [RankArg::At(-1); MOST_ITEMS].as_slice());
    assert!(rt; list.copy() == list);
}

#[test]
fn ranges_are_listed(rt: HostRuntime) {
    let range = Triplet {
        first: 6,
        last: -1,
        stride: -2,
    };
    let mut list = Triplets::none();
    for _ in 0..MOST_ITEMS {
        assert!(rt; list.push(range));
    }
    assert!(rt; !list.push(range));
    assert_eq!(rt; list.as_slice(), [range; MOST_ITEMS].as_slice());
    assert!(rt; list.copy() == list);
}

#[test]
fn translated_ranks_are_listed(rt: HostRuntime) {
    let mut list = RankOuts::none();
    for _ in 0..MOST_ITEMS {
        assert!(rt; list.push(RankOut::At(3)));
    }
    assert!(rt; !list.push(RankOut::Undefined));
    assert_eq!(rt; list.as_slice(), [RankOut::At(3); MOST_ITEMS].as_slice());
    assert!(rt; list.copy() == list);
}

#[test]
fn an_entry_and_its_message_are_copied(rt: HostRuntime) {
    let op = Op::Create(name(&rt, b"g"), tag(&rt, b"a"), name(&rt, b"c"));
    let entry = Entry {
        choice: Choice {
            rank: 3,
            act: Act::Call { thread: 7, op },
        },
        brief: None,
        said: None,
        matched: None,
        dropped: None,
        reply: Some(Reply::Refused(ErrClass::Busy)),
    };
    assert!(rt; entry.copy() == entry);
    let msg = Msg {
        ctx: 1,
        lane: 0,
        from: 2,
        source: 1,
        tag: 7,
        number: 3,
        payload: Payload::new(&[0xab, 0xcd]).expect(&rt, "a payload"),
    };
    assert!(rt; msg.copy() == msg);
}

#[test]
fn want_of_memory_is_told(rt: HostRuntime) {
    let told: OutOfMemory = AllocError.into();
    assert!(rt; told == OutOfMemory);
}
