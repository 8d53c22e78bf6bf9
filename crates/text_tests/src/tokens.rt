//! Tokens, as examples.
use mpi_base::{RankArg, RankOut, SrcArg, Triplet};
use token_text::{
    Line, TokenFault, put, put_hex, put_int, put_int_or, put_ints, put_members, put_num,
    put_num_or, put_number, put_quoted, put_rank_args, put_rank_outs, put_source, put_triplets,
    read_hex, read_int, read_int_or, read_ints, read_members, read_name, read_num, read_num_or,
    read_number, read_pset_name, read_quoted, read_rank_args, read_rank_outs, read_source,
    read_triplets,
};

#[derive(Clone, Copy, Drop)]
enum Form {
    Name,
    Pset,
    Tag,
    Num,
    Number,
    Int,
    Hex,
    Dest,
    AnyTag,
    Colour,
    Source,
    Ints,
    RankArgs,
    RankOuts,
    Triplets,
    Members,
}

/// The token of the value that a token shows.
fn again(form: Form, token: &[u8]) -> Result<Line, TokenFault> {
    let mut out = Line::new();
    match form {
        Form::Name => put(&mut out, read_name(token)?.bytes()),
        Form::Pset => put(&mut out, read_pset_name(token)?.bytes()),
        Form::Tag => put_quoted(&mut out, &read_quoted(token)?),
        Form::Num => put_num(&mut out, read_num(token)?),
        Form::Number => put_number(&mut out, read_number(u64::MAX, token)?),
        Form::Int => put_int(&mut out, read_int(token)?),
        Form::Hex => put_hex(&mut out, &read_hex(token)?),
        Form::Dest => put_num_or(&mut out, b"null", read_num_or(b"null", token)?),
        Form::AnyTag => put_num_or(&mut out, b"any", read_num_or(b"any", token)?),
        Form::Colour => put_int_or(&mut out, b"undefined", read_int_or(b"undefined", token)?),
        Form::Source => put_source(&mut out, read_source(token)?),
        Form::Ints => put_ints(&mut out, &read_ints(token)?),
        Form::RankArgs => put_rank_args(&mut out, &read_rank_args(token)?),
        Form::RankOuts => put_rank_outs(&mut out, &read_rank_outs(token)?),
        Form::Triplets => put_triplets(&mut out, &read_triplets(token)?),
        Form::Members => put_members(&mut out, &read_members(token)?),
    }
    Ok(out)
}

#[test]
fn tokens_are_read_and_written_again(rt: HostRuntime) {
    for (form, token) in [
        (Form::Name, b"a".as_slice()),
        (Form::Name, b"Z9_".as_slice()),
        (Form::Name, b"abcdefghijklmnop".as_slice()),
        (Form::Pset, b"mpi://WORLD".as_slice()),
        (Form::Pset, b"abcdefghijklmnopqrstuvwxyz-.0123".as_slice()),
        (Form::Tag, b"\"\"".as_slice()),
        (Form::Tag, b"\"!~\"".as_slice()),
        (Form::Num, b"0".as_slice()),
        (Form::Num, b"10".as_slice()),
        (Form::Num, b"2147483647".as_slice()),
        (Form::Number, b"18446744073709551615".as_slice()),
        (Form::Int, b"0".as_slice()),
        (Form::Int, b"-1".as_slice()),
        (Form::Int, b"2147483647".as_slice()),
        (Form::Int, b"-2147483648".as_slice()),
        (Form::Hex, b"-".as_slice()),
        (Form::Hex, b"00ff9a".as_slice()),
        (Form::Hex, [b'a'; 512].as_slice()),
        (Form::Dest, b"null".as_slice()),
        (Form::Dest, b"3".as_slice()),
        (Form::AnyTag, b"any".as_slice()),
        (Form::AnyTag, b"7".as_slice()),
        (Form::Colour, b"undefined".as_slice()),
        (Form::Colour, b"-1".as_slice()),
        (Form::Source, b"any".as_slice()),
        (Form::Source, b"null".as_slice()),
        (Form::Source, b"0".as_slice()),
        (Form::Ints, b"[]".as_slice()),
        (Form::Ints, b"[0]".as_slice()),
        (Form::Ints, b"[1,-2,3]".as_slice()),
        (
            Form::Ints,
            b"[0,1,2,3,4,5,6,7,8,9,10,11,12,13,14,15]".as_slice(),
        ),
        (Form::RankArgs, b"[0,null,-1]".as_slice()),
        (Form::RankOuts, b"[0,null,undefined,65535]".as_slice()),
        (Form::Triplets, b"[0:3:1,3:0:-1]".as_slice()),
        (Form::Members, b"[]".as_slice()),
        (Form::Members, b"[2,0,15]".as_slice()),
    ] {
        match again(form, token) {
            Ok(line) => assert_eq!(rt; line.as_slice(), token),
            Err(_) => panic!(rt; "a token of its form"),
        }
    }
}

#[test]
fn other_tokens_are_not_of_the_form(rt: HostRuntime) {
    for (form, token) in [
        (Form::Name, b"1c".as_slice()),
        (Form::Name, b"_a".as_slice()),
        (Form::Name, b"aaaaaaaaaaaaaaaaaaaaaa-".as_slice()),
        (Form::Pset, b"a\tb".as_slice()),
        (Form::Tag, b"a".as_slice()),
        (Form::Tag, b"\"".as_slice()),
        (Form::Tag, b"\"a b\"".as_slice()),
        (Form::Tag, b"\"a\"b\"".as_slice()),
        (Form::Num, b"01".as_slice()),
        (Form::Num, b"00".as_slice()),
        (Form::Num, b"-1".as_slice()),
        (Form::Num, b"+1".as_slice()),
        (Form::Num, b"1a".as_slice()),
        (Form::Num, b"2147483648".as_slice()),
        (Form::Number, b"18446744073709551616".as_slice()),
        (Form::Int, b"-0".as_slice()),
        (Form::Int, b"-01".as_slice()),
        (Form::Int, b"-".as_slice()),
        (Form::Int, b"2147483648".as_slice()),
        (Form::Int, b"-2147483649".as_slice()),
        (Form::Hex, b"0g".as_slice()),
        (Form::Hex, b"FF".as_slice()),
        (Form::Hex, b"abc".as_slice()),
        (Form::Hex, b"--".as_slice()),
        (Form::Hex, [b'a'; 513].as_slice()),
        (Form::Dest, b"any".as_slice()),
        (Form::Dest, b"nul".as_slice()),
        (Form::AnyTag, b"null".as_slice()),
        (Form::Colour, b"undefined0".as_slice()),
        (Form::Source, b"-1".as_slice()),
        (Form::Ints, b"[".as_slice()),
        (Form::Ints, b"0,1".as_slice()),
        (Form::Ints, b"[0,]".as_slice()),
        (Form::Ints, b"[,0]".as_slice()),
        (Form::Ints, b"[0 ,1]".as_slice()),
        (Form::Ints, b"[null]".as_slice()),
        (
            Form::Ints,
            b"[0,1,2,3,4,5,6,7,8,9,10,11,12,13,14,15,x]".as_slice(),
        ),
        (Form::RankArgs, b"[undefined]".as_slice()),
        (Form::RankOuts, b"[65536]".as_slice()),
        (Form::Triplets, b"[0:3]".as_slice()),
        (Form::Triplets, b"[0:3:1:1]".as_slice()),
        (Form::Triplets, b"[0::1]".as_slice()),
        (Form::Members, b"[0,0]".as_slice()),
        (Form::Members, b"[16]".as_slice()),
    ] {
        assert!(rt; again(form, token).err() == Some(TokenFault::NotOfForm));
    }
}

#[test]
fn no_form_has_the_empty_token(rt: HostRuntime) {
    for form in [
        Form::Name,
        Form::Pset,
        Form::Tag,
        Form::Num,
        Form::Int,
        Form::Hex,
        Form::Colour,
        Form::Ints,
    ] {
        assert!(rt; again(form, b"").err() == Some(TokenFault::NotOfForm));
    }
}

#[test]
fn tokens_may_be_too_long(rt: HostRuntime) {
    for (form, token) in [
        (Form::Name, b"abcdefghijklmnopq".as_slice()),
        (Form::Pset, b"abcdefghijklmnopqrstuvwxyz-.01234".as_slice()),
        (
            Form::Tag,
            b"\"aaaaaaaaaaaaaaaaaaaaaaaaaaaaaaaaaaaaaaaaaaaaaaaaaaaaaaaaaaaaaaaa\"".as_slice(),
        ),
        (Form::Hex, [b'a'; 514].as_slice()),
        (
            Form::Ints,
            b"[0,1,2,3,4,5,6,7,8,9,10,11,12,13,14,15,16]".as_slice(),
        ),
        (
            Form::RankArgs,
            b"[0,1,2,3,4,5,6,7,8,9,10,11,12,13,14,15,null]".as_slice(),
        ),
        (
            Form::Triplets,
            b"[0:0:0,0:0:0,0:0:0,0:0:0,0:0:0,0:0:0,0:0:0,0:0:0,0:0:0,0:0:0,0:0:0,0:0:0,0:0:0,0:0:0,0:0:0,0:0:0,0:0:0]".as_slice(),
        ),
    ] {
        assert!(rt; again(form, token).err() == Some(TokenFault::TooLong));
    }
}

#[test]
fn tokens_show_their_values(rt: HostRuntime) {
    assert!(rt; read_int(b"-2147483648") == Ok(i32::MIN));
    assert!(rt; read_num(b"2147483647") == Ok(2_147_483_647));
    assert!(rt; read_number(9, b"9") == Ok(9));
    assert!(rt; read_number(9, b"10") == Err(TokenFault::NotOfForm));
    assert!(rt; read_num_or(b"null", b"null") == Ok(None));
    assert!(rt; read_int_or(b"undefined", b"-7") == Ok(Some(-7)));
    assert!(rt; read_source(b"4") == Ok(SrcArg::At(4)));
    let payload = read_hex(b"0fa0").ok().expect(&rt, "bytes");
    assert_eq!(rt; payload.bytes(), [15, 160].as_slice());
    let ints = read_ints(b"[3,-1]").ok().expect(&rt, "a list");
    assert_eq!(rt; ints.as_slice(), [3, -1].as_slice());
    let ranks = read_rank_args(b"[null,2]").ok().expect(&rt, "a list");
    assert!(rt; ranks.as_slice() == [RankArg::Null, RankArg::At(2)].as_slice());
    let ranks = read_rank_outs(b"[undefined,2]").ok().expect(&rt, "a list");
    assert!(rt; ranks.as_slice() == [RankOut::Undefined, RankOut::At(2)].as_slice());
    let ranges = read_triplets(b"[0:3:-1]").ok().expect(&rt, "a list");
    let range = Triplet {
        first: 0,
        last: 3,
        stride: -1,
    };
    assert!(rt; ranges.as_slice() == [range].as_slice());
}
