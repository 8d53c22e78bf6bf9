//! The table of the operations.
ghost use Rattle.std.specs.Prelude.{◌≡◌, ◌≤◌, length, find, bytes_eq, IfSome, IfNone};
ghost use Rattle.op_table.specs.Table.{word_text, fields_of, kind_in};
ghost use Rattle.op_table.specs.declared.kinds.OpKind.{OpKind as AnyKind};

use crate::kinds::{Field, OpKind};

/// The rows: each kind, its word, and the fields behind the word in written order, each with a name
/// and the kind of field that it is. Behind `->` stands the name that the operation binds.
///
/// `operations!(rows; given)` calls the macro `rows!` of the caller, as
/// `rows! { given; Session b"session" (target: Name); .. }`, with all the rows. What `rows!` makes of
/// them may use the fields' names as variables.
#[macro_export]
macro_rules! operations {
    ($rows:ident; $($given:tt)*) => {
        $rows! {
            $($given)*;
            Session b"session" (target: Name);
            Finalize b"finalize" (session: Name);
            Psets b"psets" (session: Name);
            Nth b"nth" (session: Name, number: Num);
            Info b"info" (session: Name, set: Pset);
            Pset b"pset" (session: Name, set: Pset -> target: Name);
            Union b"union" (first: Name, second: Name -> target: Name);
            Intersect b"intersect" (first: Name, second: Name -> target: Name);
            Difference b"difference" (first: Name, second: Name -> target: Name);
            Incl b"incl" (group: Name, ranks: List -> target: Name);
            Excl b"excl" (group: Name, ranks: List -> target: Name);
            RangeIncl b"range_incl" (group: Name, ranges: TripletList -> target: Name);
            RangeExcl b"range_excl" (group: Name, ranges: TripletList -> target: Name);
            Translate b"translate" (from: Name, ranks: NullList, to: Name);
            Compare b"compare" (first: Name, second: Name);
            Size b"size" (group: Name);
            Rank b"rank" (group: Name);
            Gfree b"gfree" (group: Name);
            Create b"create" (group: Name, tag: Quoted -> target: Name);
            Dup b"dup" (comm: Name -> target: Name);
            Split b"split" (comm: Name, colour: Colour, key: Int -> target: Name);
            CreateGroup b"create_group" (comm: Name, group: Name, tag: Num -> target: Name);
            Group b"group" (comm: Name -> target: Name);
            Ccompare b"ccompare" (first: Name, second: Name);
            Csize b"csize" (comm: Name);
            Crank b"crank" (comm: Name);
            Free b"free" (comm: Name);
            Send b"send" (comm: Name, to: Dest, tag: Num, payload: Hex);
            Recv b"recv" (comm: Name, source: Source, tag: TagOrAny, room: Num);
            Irecv b"irecv" (comm: Name, source: Source, tag: TagOrAny, room: Num -> target: Name);
            Wait b"wait" (request: Name);
            Await b"await" (target: Name);
        }
    };
}

/// Picks the kinds, a word or a list of fields out of the rows.
macro_rules! pick {
    (kinds; $($kind:ident $word:literal $fields:tt;)*) => {
        [$(OpKind::$kind),*]
    };
    (word $found:expr; $($kind:ident $word:literal $fields:tt;)*) => {
        match $found {
            $(OpKind::$kind => $word),*
        }
    };
    (form $found:expr; $($kind:ident $word:literal ($($name:ident: $field:ident),* $(-> $target:ident: $bound:ident)?);)*) => {
        match $found {
            $(OpKind::$kind => &[$(Field::$field,)* $(Field::Arrow, Field::$bound)?]),*
        }
    };
}

/// The word of an operation, at most 12 bytes.
pub fn word_of(kind: OpKind) -> &'static [u8]
    ensures word { result.now ≡ word_text kind }
    ensures short { length result.now ≤ 12 }
{
    operations!(pick; word kind)
}

/// The fields behind the word of an operation, in written order.
pub fn form_of(kind: OpKind) -> &'static [Field]
    ensures { result.now ≡ fields_of kind }
{
    operations!(pick; form kind)
}

/// The operation with this word; None exactly where no operation has it.
pub fn kind_of(word: &[u8]) -> Option<OpKind>
    ensures value { result ≡ kind_in word.now }
    ensures found { IfSome result (λ k. word_text k ≡ word.now) }
    ensures none { IfNone result ((k : AnyKind) → word_text k ≡ word.now → ⊥) }
{
    first_with(&operations!(pick; kinds), word)
}

fn first_with<const N: usize>(kinds: &[OpKind; N], word: &[u8]) -> Option<OpKind>
    ensures { result ≡ find (λ k. bytes_eq (word_text k) word.now) kinds.now }
{
    kinds.iter().copied().find(|kind| word_of(*kind) == word)
}

/// A word is the word of one kind alone, and that kind is found by it.
pub fn words_tell()
    ensures again { (k : AnyKind) → kind_in (word_text k) ≡ Some k }
    ensures alone { (j k : AnyKind) → word_text j ≡ word_text k → j ≡ k }
{}
