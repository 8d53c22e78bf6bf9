//! Lines of a script, read.
ghost use Rattle.std.specs.Prelude.{◌≡◌, not, ◌==◌, find, None, Some, IfOk, IfErr, List, ℕ, ◌++◌, true};
ghost use Rattle.script_text.specs.Tokens.{is_blank_line};
ghost use Rattle.script_text.specs.Spelling.{IsOp, Spells, tokens_of};
ghost use Rattle.script_text.specs.Writes.{line_of};
ghost use Rattle.script_text.specs.Faults.{fault_of};
ghost use Rattle.script_text.specs.Reads.{ReadsOp};
ghost use Rattle.mpi_base.specs.declared.ops.Op.{Op as AnyOp};

use crate::faults::{FaultKind, LineFault};
use crate::reader::Reader;
use mpi_base::Op;
use op_table::{OpKind, kind_of, operations};
use token_text::forms_are_exact;

fn first_solid(line: &[u8]) -> Option<u8>
    ensures { result ≡ find (λ b. not (b == 32)) line.now }
{
    line.iter().copied().find(|byte| *byte != b' ')
}

/// Whether a line has only spaces, or `#` as its first byte that is no space.
pub fn is_blank(line: &[u8]) -> bool
    ensures { result ≡ is_blank_line line.now }
{
    match first_solid(line) {
        None => true,
        Some(byte) => byte == b'#',
    }
}

/// Reads one field of a row of the table: with the reader's method for that kind of field.
macro_rules! read_field {
    ($reader:ident Name) => { $reader.name()? };
    ($reader:ident Pset) => { $reader.pset()? };
    ($reader:ident Quoted) => { $reader.quoted()? };
    ($reader:ident Num) => { $reader.num()? };
    ($reader:ident Int) => { $reader.int()? };
    ($reader:ident Hex) => { $reader.hex()? };
    ($reader:ident List) => { $reader.list()? };
    ($reader:ident NullList) => { $reader.null_list()? };
    ($reader:ident TripletList) => { $reader.triplet_list()? };
    ($reader:ident Dest) => { $reader.dest()? };
    ($reader:ident Source) => { $reader.source()? };
    ($reader:ident TagOrAny) => { $reader.tag_or_any()? };
    ($reader:ident Colour) => { $reader.colour()? };
    ($reader:ident -> Name) => { $reader.target()? };
}

/// Reads the fields of a kind, by the rows of the table: for `Nth b"nth" (session: Name, number: Num)`
/// it writes the arm `OpKind::Nth => Ok(Op::Nth(reader.name()?, reader.num()?))`.
macro_rules! read_row {
    ($kind:ident $reader:ident; $($op:ident $word:literal ($($name:ident: $field:ident),* $(-> $target:ident: $bound:ident)?);)*) => {
        match $kind {
            $(OpKind::$op => Ok(Op::$op($(read_field!($reader $field),)* $(read_field!($reader -> $bound))?)),)*
        }
    };
}

/// The operation of a kind whose fields come next, or the first fault among them.
pub fn read_fields(kind: OpKind, reader: &mut Reader) -> Result<Op, LineFault>
    ensures { ReadsOp kind reader.old reader.new result }
{
    operations!(read_row; kind reader)
}

/// The operation that a line spells, or the first fault of the line. The line feed, and a carriage
/// return before it, are not part of the line.
pub fn read_line(line: &[u8]) -> Result<Op, LineFault>
    // What is read is spelled so.
    ensures found { IfOk result (λ op. IsOp op × Spells line.now op) }
    // What is spelled so is read.
    ensures only { (op : AnyOp) → IsOp op → Spells line.now op → result ≡ Ok op }
    // Which fault it is.
    ensures fault { IfErr result (λ e. fault_of line.now ≡ Some e) }
{
    forms_are_exact();
    read_tokens(line)
}

#[tactic(auto, using(crate::proofs::Spelled::line_extra))]
fn read_tokens(line: &[u8]) -> Result<Op, LineFault>
    ensures found { IfOk result (λ op. IsOp op × Spells line.now op) }
    ensures fault { IfErr result (λ e. fault_of line.now ≡ Some e) }
{
    let mut reader = Reader::new(line);
    let token = reader.token()?;
    let Some(kind) = kind_of(token.text) else {
        return Err(token.fault(FaultKind::UnknownWord));
    };
    let op = read_fields(kind, &mut reader)?;
    reader.finish()?;
    Ok(op)
}

/// What holds of all lines: the line that is written for a well-formed operation is a spelling of
/// it, a line is a spelling of one operation alone, and a blank line of none; a spelling has no fault.
pub fn lines_tell()
    ensures own { (op : AnyOp) → IsOp op → Spells (line_of op) op }
    ensures alone { (line : List ℕ) (a b : AnyOp) → IsOp a → IsOp b → Spells line a → Spells line b → a ≡ b }
    // So too where other tokens follow, as in a journal.
    ensures inside { (a b : AnyOp) (xs ys : List (List ℕ)) → IsOp a → IsOp b → tokens_of a ++ xs ≡ tokens_of b ++ ys → (a ≡ b) × (xs ≡ ys) }
    ensures blank { (line : List ℕ) (op : AnyOp) → is_blank_line line ≡ true → Spells line op → ⊥ }
    ensures good { (line : List ℕ) (op : AnyOp) → IsOp op → Spells line op → fault_of line ≡ None }
{
    forms_are_exact();
}
