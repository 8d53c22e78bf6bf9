//! Operations, written.
ghost use Rattle.std.specs.Prelude.{◌≡◌, ◌≤◌, ◌+◌, ◌++◌, [], ◌∷◌, length};
ghost use Rattle.script_text.specs.Spelling.{name, pset, quoted, num, int, hex, list, null_list, triplet_list, arrow, dest, source, tag_or_any, colour, values_of, kind_of};
ghost use Rattle.script_text.specs.Writes.{line_of, Puts};

use mpi_base::{Ints, Name, Op, Payload, PsetName, RankArgs, SrcArg, StringTag, Triplets};
use op_table::{OpKind, operations, word_of};
use token_text::{
    Line, put, put_hex, put_int, put_int_or, put_ints, put_num_or, put_number, put_quoted,
    put_rank_args, put_source, put_triplets,
};

// Each of these adds a space, and then the token of a value.

fn add_name(out: &mut Line, value: &Name)
    requires room { length out.old.items + 17 ≤ 2048 }
    ensures { Puts 17 (name value.now ∷ []) out.old.items out.new.items }
{
    put(out, b" ");
    put(out, value.bytes());
}

fn add_pset(out: &mut Line, value: &PsetName)
    requires room { length out.old.items + 33 ≤ 2048 }
    ensures { Puts 33 (pset value.now ∷ []) out.old.items out.new.items }
{
    put(out, b" ");
    put(out, value.bytes());
}

fn add_quoted(out: &mut Line, value: &StringTag)
    requires room { length out.old.items + 66 ≤ 2048 }
    ensures { Puts 66 (quoted value.now ∷ []) out.old.items out.new.items }
{
    put(out, b" ");
    put_quoted(out, value);
}

fn add_num(out: &mut Line, value: u32)
    requires room { length out.old.items + 21 ≤ 2048 }
    ensures { Puts 21 (num value ∷ []) out.old.items out.new.items }
{
    put(out, b" ");
    put_number(out, u64::from(value));
}

fn add_int(out: &mut Line, value: i32)
    requires room { length out.old.items + 12 ≤ 2048 }
    ensures { Puts 12 (int value ∷ []) out.old.items out.new.items }
{
    put(out, b" ");
    put_int(out, value);
}

fn add_hex(out: &mut Line, value: &Payload)
    requires room { length out.old.items + 513 ≤ 2048 }
    ensures { Puts 513 (hex value.now ∷ []) out.old.items out.new.items }
{
    put(out, b" ");
    put_hex(out, value);
}

fn add_list(out: &mut Line, value: &Ints)
    requires room { length out.old.items + 195 ≤ 2048 }
    ensures { Puts 195 (list value.now ∷ []) out.old.items out.new.items }
{
    put(out, b" ");
    put_ints(out, value);
}

fn add_null_list(out: &mut Line, value: &RankArgs)
    requires room { length out.old.items + 195 ≤ 2048 }
    ensures { Puts 195 (null_list value.now ∷ []) out.old.items out.new.items }
{
    put(out, b" ");
    put_rank_args(out, value);
}

fn add_triplet_list(out: &mut Line, value: &Triplets)
    requires room { length out.old.items + 579 ≤ 2048 }
    ensures { Puts 579 (triplet_list value.now ∷ []) out.old.items out.new.items }
{
    put(out, b" ");
    put_triplets(out, value);
}

fn add_dest(out: &mut Line, value: Option<u32>)
    requires room { length out.old.items + 21 ≤ 2048 }
    ensures { Puts 21 (dest value ∷ []) out.old.items out.new.items }
{
    put(out, b" ");
    put_num_or(out, b"null", value);
}

fn add_source(out: &mut Line, value: SrcArg)
    requires room { length out.old.items + 21 ≤ 2048 }
    ensures { Puts 21 (source value ∷ []) out.old.items out.new.items }
{
    put(out, b" ");
    put_source(out, value);
}

fn add_tag_or_any(out: &mut Line, value: Option<u32>)
    requires room { length out.old.items + 21 ≤ 2048 }
    ensures { Puts 21 (tag_or_any value ∷ []) out.old.items out.new.items }
{
    put(out, b" ");
    put_num_or(out, b"any", value);
}

fn add_colour(out: &mut Line, value: Option<i32>)
    requires room { length out.old.items + 12 ≤ 2048 }
    ensures { Puts 12 (colour value ∷ []) out.old.items out.new.items }
{
    put(out, b" ");
    put_int_or(out, b"undefined", value);
}

/// Adds the arrow and the name behind it.
fn add_target(out: &mut Line, value: &Name)
    requires room { length out.old.items + 20 ≤ 2048 }
    ensures { Puts 20 (arrow ∷ name value.now ∷ []) out.old.items out.new.items }
{
    put(out, b" ->");
    add_name(out, value);
}

/// The kind of an operation, by the rows of the table: for `Nth b"nth" (..)` it writes the arm
/// `Op::Nth(..) => OpKind::Nth`.
macro_rules! kind_of_row {
    ($found:ident; $($op:ident $word:literal $fields:tt;)*) => {
        match $found {
            $(Op::$op(..) => OpKind::$op,)*
        }
    };
}

/// The kind of an operation.
fn kind(op: &Op) -> OpKind
    ensures { result ≡ kind_of op.now }
{
    operations!(kind_of_row; op)
}

/// Adds one field of a row of the table: with the function above for that kind of field.
macro_rules! add_field {
    ($out:ident $value:ident Name) => { add_name($out, $value) };
    ($out:ident $value:ident Pset) => { add_pset($out, $value) };
    ($out:ident $value:ident Quoted) => { add_quoted($out, $value) };
    ($out:ident $value:ident Num) => { add_num($out, *$value) };
    ($out:ident $value:ident Int) => { add_int($out, *$value) };
    ($out:ident $value:ident Hex) => { add_hex($out, $value) };
    ($out:ident $value:ident List) => { add_list($out, $value) };
    ($out:ident $value:ident NullList) => { add_null_list($out, $value) };
    ($out:ident $value:ident TripletList) => { add_triplet_list($out, $value) };
    ($out:ident $value:ident Dest) => { add_dest($out, *$value) };
    ($out:ident $value:ident Source) => { add_source($out, *$value) };
    ($out:ident $value:ident TagOrAny) => { add_tag_or_any($out, *$value) };
    ($out:ident $value:ident Colour) => { add_colour($out, *$value) };
    ($out:ident $value:ident -> Name) => { add_target($out, $value) };
}

/// Adds the fields of an operation, by the rows of the table: for
/// `Nth b"nth" (session: Name, number: Num)` it writes the arm
/// `Op::Nth(session, number) => { add_name(out, session); add_num(out, *number); }`.
macro_rules! add_row {
    ($found:ident $out:ident; $($op:ident $word:literal ($($name:ident: $field:ident),* $(-> $target:ident: $bound:ident)?);)*) => {
        match $found {
            $(Op::$op($($name,)* $($target)?) => {
                $(add_field!($out $name $field);)*
                $(add_field!($out $target -> $bound);)?
            })*
        }
    };
}

/// Adds what stands behind an operation's word.
fn add_values(out: &mut Line, op: &Op)
    requires room { length out.old.items + 628 ≤ 2048 }
    ensures { Puts 628 (values_of op.now) out.old.items out.new.items }
{
    operations!(add_row; op out)
}

/// Adds the line of an operation, with one space between two tokens, in at most 640 bytes.
pub fn write_op(op: &Op, out: &mut Line)
    requires room { length out.old.items + 640 ≤ 2048 }
    ensures added { out.new.items ≡ out.old.items ++ line_of op.now }
    ensures short { length out.new.items ≤ length out.old.items + 640 }
{
    put(out, word_of(kind(op)));
    add_values(out, op);
}
