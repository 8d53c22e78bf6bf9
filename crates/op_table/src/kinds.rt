//! Kinds of operations, and kinds of fields.

/// What an operation does: one kind for each word.
#[derive(Clone, Copy, Debug, Drop, PartialEq, Eq)]
pub enum OpKind {
    /// `session`.
    Session,
    /// `finalize`.
    Finalize,
    /// `psets`.
    Psets,
    /// `nth`.
    Nth,
    /// `info`.
    Info,
    /// `pset`.
    Pset,
    /// `union`.
    Union,
    /// `intersect`.
    Intersect,
    /// `difference`.
    Difference,
    /// `incl`.
    Incl,
    /// `excl`.
    Excl,
    /// `range_incl`.
    RangeIncl,
    /// `range_excl`.
    RangeExcl,
    /// `translate`.
    Translate,
    /// `compare`.
    Compare,
    /// `size`.
    Size,
    /// `rank`.
    Rank,
    /// `gfree`.
    Gfree,
    /// `create`.
    Create,
    /// `dup`.
    Dup,
    /// `split`.
    Split,
    /// `create_group`.
    CreateGroup,
    /// `group`.
    Group,
    /// `ccompare`.
    Ccompare,
    /// `csize`.
    Csize,
    /// `crank`.
    Crank,
    /// `free`.
    Free,
    /// `send`.
    Send,
    /// `recv`.
    Recv,
    /// `irecv`.
    Irecv,
    /// `wait`.
    Wait,
    /// `await`.
    Await,
}

/// What may stand in one place of a line.
#[derive(Clone, Copy, Debug, Drop, PartialEq, Eq)]
pub enum Field {
    /// A name of the script.
    Name,
    /// A name of a process set.
    Pset,
    /// A string tag between quotes.
    Quoted,
    /// A number without a sign.
    Num,
    /// A number that may have a sign.
    Int,
    /// Bytes, as hexadecimal digits.
    Hex,
    /// A list of numbers.
    List,
    /// A list of numbers, any of which may be `null`.
    NullList,
    /// A list of ranges.
    TripletList,
    /// `->`.
    Arrow,
    /// A rank to send to, or `null`.
    Dest,
    /// A rank to receive from, `any` or `null`.
    Source,
    /// A tag, or `any`.
    TagOrAny,
    /// A colour, or `undefined`.
    Colour,
}
