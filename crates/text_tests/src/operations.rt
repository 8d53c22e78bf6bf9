//! Words and forms, as examples.
use op_table::{Field, OpKind, form_of, kind_of, word_of};

#[test]
fn each_word_has_its_kind(rt: HostRuntime) {
    for (word, kind) in [
        (b"session".as_slice(), OpKind::Session),
        (b"range_excl".as_slice(), OpKind::RangeExcl),
        (b"create_group".as_slice(), OpKind::CreateGroup),
        (b"await".as_slice(), OpKind::Await),
    ] {
        assert!(rt; kind_of(word) == Some(kind));
        assert_eq!(rt; word_of(kind), word);
    }
}

#[test]
fn other_words_have_none(rt: HostRuntime) {
    for word in [
        b"".as_slice(),
        b"sess".as_slice(),
        b"sessions".as_slice(),
        b"Session".as_slice(),
        b"->".as_slice(),
    ] {
        assert!(rt; kind_of(word).is_none());
    }
}

#[test]
fn fields_stand_in_written_order(rt: HostRuntime) {
    let fields = [
        Field::Name,
        Field::Source,
        Field::TagOrAny,
        Field::Num,
        Field::Arrow,
        Field::Name,
    ];
    assert!(rt; form_of(OpKind::Irecv) == fields.as_slice());
    assert!(rt; form_of(OpKind::Wait) == [Field::Name].as_slice());
}
