//! The group calls, as examples.
use mpi_base::{ErrClass, Likeness, Members, RankArg, RankOut, Triplet};
use mpi_group::Group;

fn group(processes: &[u16]) -> Group {
    let mut members = Members::none();
    for process in processes {
        members.push(*process);
    }
    Group::of(members)
}

fn triplet(first: i32, last: i32, stride: i32) -> Triplet {
    Triplet {
        first,
        last,
        stride,
    }
}

#[test]
fn worked_examples(rt: HostRuntime) {
    let world = group(&[0, 1, 2, 3, 4, 5, 6, 7]);
    let four = group(&[0, 1, 2, 3]);
    let third = group(&[0, 3, 6]);
    let even = group(&[6, 4, 2, 0]);
    for (given, wanted) in [
        (
            world.range_incl(&[triplet(0, 7, 3)]),
            Ok([0, 3, 6].as_slice()),
        ),
        (world.range_incl(&[triplet(6, 0, -2)]), Ok(&[6, 4, 2, 0])),
        (world.range_incl(&[triplet(6, -1, -2)]), Ok(&[6, 4, 2, 0])),
        (world.range_incl(&[triplet(0, 7, 0)]), Err(ErrClass::Arg)),
        (world.range_incl(&[triplet(2, 8, 3)]), Err(ErrClass::Rank)),
        (Ok(third.union(&even)), Ok(&[0, 3, 6, 4, 2])),
        (Ok(even.intersection(&third)), Ok(&[6, 0])),
        (Ok(third.difference(&even)), Ok(&[3])),
        (four.excl(&[1, 3]), Ok(&[0, 2])),
        (four.excl(&[1, 1]), Err(ErrClass::Rank)),
        (four.excl(&[]), Ok(&[0, 1, 2, 3])),
        (four.incl(&[]), Ok(&[])),
        (four.range_incl(&[triplet(3, 0, 1)]), Ok(&[])),
    ] {
        assert!(rt; given == wanted.map(group));
    }
    for (rank, wanted) in [
        (RankArg::At(0), RankOut::At(3)),
        (RankArg::Null, RankOut::Null),
        (RankArg::At(1), RankOut::Undefined),
    ] {
        assert_eq!(rt; third.translate_one(rank, &even), Ok(wanted));
    }
    for (other, wanted) in [
        (group(&[0, 3, 6]), Likeness::Ident),
        (group(&[6, 3, 0]), Likeness::Similar),
        (even, Likeness::Unequal),
    ] {
        assert_eq!(rt; third.compare(&other), wanted);
    }
}

#[test]
fn numbers_that_are_no_ranks(rt: HostRuntime) {
    let four = group(&[0, 1, 2, 3]);
    for (given, wanted) in [
        (four.incl(&[3, 1]), Ok([3, 1].as_slice())),
        (four.incl(&[-1]), Err(ErrClass::Rank)),
        (four.incl(&[4]), Err(ErrClass::Rank)),
        (
            four.range_incl(&[triplet(i32::MIN, i32::MAX, 1)]),
            Err(ErrClass::Rank),
        ),
        (
            four.range_incl(&[triplet(0, i32::MAX, i32::MAX)]),
            Err(ErrClass::Rank),
        ),
        (
            four.range_incl(&[triplet(i32::MAX, i32::MIN, -1)]),
            Err(ErrClass::Rank),
        ),
        (four.range_incl(&[triplet(0, 0, i32::MIN)]), Ok(&[0])),
    ] {
        assert!(rt; given == wanted.map(group));
    }
    for number in [i32::MIN, -1, 4, i32::MAX] {
        assert_eq!(rt;
            four.translate_one(RankArg::At(number), &four),
            Err(ErrClass::Rank)
        );
    }
}

#[test]
fn several_triplets(rt: HostRuntime) {
    let four = group(&[10, 11, 12, 13]);
    let apart = [triplet(3, 2, -1), triplet(0, 0, 1)];
    let repeated = [triplet(0, 2, 2), triplet(2, 3, 1)];
    let still = [triplet(9, 9, 1), triplet(0, 0, 0)];
    for (given, wanted) in [
        (four.range_incl(&apart), Ok([13, 12, 10].as_slice())),
        (four.range_excl(&apart), Ok(&[11])),
        (four.range_incl(&repeated), Err(ErrClass::Rank)),
        (four.range_excl(&repeated), Err(ErrClass::Rank)),
        (four.range_incl(&still), Err(ErrClass::Arg)),
        (four.range_excl(&still), Err(ErrClass::Arg)),
    ] {
        assert!(rt; given == wanted.map(group));
    }
}

#[test]
fn members_of_a_group(rt: HostRuntime) {
    let third = group(&[0, 3, 6]);
    assert!(rt; third.copy() == third);
    assert_eq!(rt; third.rank_of(6), Some(2));
    assert_eq!(rt; third.rank_of(4), None);
    assert_eq!(rt; third.members().len(), 3);
    let nobody = group(&[]);
    assert_eq!(rt;
        third.translate_one(RankArg::Null, &nobody),
        Ok(RankOut::Null)
    );
}
