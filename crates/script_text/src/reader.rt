//! Tokens of a line, and the fields of operations.
ghost use Rattle.std.specs.Prelude.{◌≡◌, ◌+◌, ◌<◌, ◌≤◌, ◌==◌, not, [], ◌∷◌, length, position, Ok, Some, OnOk, IfOk, IfErr};
ghost use Rattle.script_text.specs.Tokens.{tokens};
ghost use Rattle.script_text.specs.Faults.{end_fault, named};
ghost use Rattle.script_text.specs.Reads.{Blank, Word, Reads};
ghost use Rattle.script_text.specs.Spelling.{name, pset, quoted, num, int, hex, list, null_list, triplet_list, arrow, dest, source, tag_or_any, colour};

use crate::faults::{FaultKind, LineFault};
use mpi_base::{Ints, Name, Payload, PsetName, RankArgs, SrcArg, StringTag, Triplets};
use op_table::Field;
use std::marker::Model;
use token_text::TokenFault;

/// A token, and the column where it begins.
#[derive(Clone, Copy, Drop)]
pub struct Token<'a> {
    /// The column of the first byte, from 1.
    pub column: usize,
    /// The bytes, none of them a space.
    pub text: &'a [u8],
}

impl<'a> Token<'a> {
    /// A fault of this token.
    pub fn fault(&self, kind: FaultKind) -> LineFault
        ensures { result ≡ record { column = self.now.column; kind = kind } }
    {
        LineFault {
            column: self.column,
            kind,
        }
    }

    /// The fault of a token, of this kind where the token is not of its form.
    fn bad(&self, kind: FaultKind, fault: TokenFault) -> LineFault
        ensures { result ≡ record { column = self.now.column; kind = named kind fault } }
    {
        match fault {
            TokenFault::NotOfForm => self.fault(kind),
            TokenFault::TooLong => self.fault(FaultKind::TooLong),
        }
    }
}

/// What is left of a line, from this column on.
#[derive(Drop)]
pub struct Reader<'a> {
    rest: &'a [u8],
    column: usize,
}

impl<'a> Model for Reader<'a> {
    ghost use Rattle.std.specs.Prelude.{◌+◌, ◌<◌, ◌^◌, length};
    ghost use Rattle.script_text.specs.Tokens.{tokens};
    ghost use Rattle.script_text.specs.Reads.{Ahead};

    ghost Value = { Ahead };

    ghost view = { λ r. record { tokens = tokens r.column r.rest.now; end = r.column + length r.rest.now } };

    ghost invariant = { λ r. r.column + length r.rest.now < 2 ^ 64 };
}

fn first_not_space(bytes: &[u8]) -> Option<usize>
    ensures value { result ≡ position (λ b. not (b == 32)) bytes.now }
{
    bytes.iter().position(|byte| *byte != b' ')
}

fn first_space(bytes: &[u8]) -> Option<usize>
    ensures value { result ≡ position (λ b. b == 32) bytes.now }
{
    bytes.iter().position(|byte| *byte == b' ')
}

fn blank_len(bytes: &[u8]) -> usize
    ensures within { result ≤ length bytes.now }
    ensures part { Blank bytes.now result }
{
    match first_not_space(bytes) {
        Some(place) => place,
        None => bytes.len(),
    }
}

fn word_len(bytes: &[u8]) -> usize
    ensures within { result ≤ length bytes.now }
    ensures part { Word bytes.now result }
{
    match first_space(bytes) {
        Some(place) => place,
        None => bytes.len(),
    }
}

#[tactic(auto, using(crate::proofs::Walks::reading))]
impl<'a> Reader<'a> {
    /// A reader before the first byte of a line.
    pub fn new(line: &'a [u8]) -> Reader<'a>
        ensures tokens { result.tokens ≡ tokens 1 line.now }
        ensures end { result.end ≡ length line.now + 1 }
    {
        Reader {
            rest: line,
            column: 1,
        }
    }

    /// The next token, or that one is missing.
    pub fn token(&mut self) -> Result<Token<'a>, LineFault>
        ensures end { IfOk result (λ t. self.new.end ≡ self.old.end) }
        ensures some { IfOk result (λ t. self.old.tokens ≡ record { column = t.column; text = t.text.now } ∷ self.new.tokens) }
        ensures none { IfErr result (λ e. self.old.tokens ≡ []) }
        ensures missing { IfErr result (λ e. e ≡ record { column = self.old.end; kind = FaultKind.Missing }) }
        ensures left { IfErr result (λ e. self.new ≡ self.old) }
    {
        let blank = blank_len(self.rest);
        let (_, rest) = self.rest.split_at(blank);
        let column = self.column + blank;
        let len = word_len(rest);
        if len == 0 {
            return Err(LineFault {
                column,
                kind: FaultKind::Missing,
            });
        }
        let (text, rest) = rest.split_at(len);
        self.rest = rest;
        self.column = column + len;
        Ok(Token { column, text })
    }

    /// A name.
    pub fn name(&mut self) -> Result<Name, LineFault>
        ensures { Reads (Field.Name ∷ []) (λ x. name x ∷ []) self.old self.new result }
    {
        let token = self.token()?;
        match token_text::read_name(token.text) {
            Ok(value) => Ok(value),
            Err(fault) => Err(token.bad(FaultKind::BadName, fault)),
        }
    }

    /// A name of a process set.
    pub fn pset(&mut self) -> Result<PsetName, LineFault>
        ensures { Reads (Field.Pset ∷ []) (λ x. pset x ∷ []) self.old self.new result }
    {
        let token = self.token()?;
        match token_text::read_pset_name(token.text) {
            Ok(value) => Ok(value),
            Err(fault) => Err(token.bad(FaultKind::BadName, fault)),
        }
    }

    /// A string tag between quotes.
    pub fn quoted(&mut self) -> Result<StringTag, LineFault>
        ensures { Reads (Field.Quoted ∷ []) (λ x. quoted x ∷ []) self.old self.new result }
    {
        let token = self.token()?;
        match token_text::read_quoted(token.text) {
            Ok(value) => Ok(value),
            Err(fault) => Err(token.bad(FaultKind::BadName, fault)),
        }
    }

    /// A number without a sign.
    pub fn num(&mut self) -> Result<u32, LineFault>
        ensures { Reads (Field.Num ∷ []) (λ x. num x ∷ []) self.old self.new result }
    {
        let token = self.token()?;
        match token_text::read_num(token.text) {
            Ok(value) => Ok(value),
            Err(fault) => Err(token.bad(FaultKind::BadNumber, fault)),
        }
    }

    /// A number that may have a sign.
    pub fn int(&mut self) -> Result<i32, LineFault>
        ensures { Reads (Field.Int ∷ []) (λ x. int x ∷ []) self.old self.new result }
    {
        let token = self.token()?;
        match token_text::read_int(token.text) {
            Ok(value) => Ok(value),
            Err(fault) => Err(token.bad(FaultKind::BadNumber, fault)),
        }
    }

    /// The bytes of a message.
    pub fn hex(&mut self) -> Result<Payload, LineFault>
        ensures { Reads (Field.Hex ∷ []) (λ x. hex x ∷ []) self.old self.new result }
    {
        let token = self.token()?;
        match token_text::read_hex(token.text) {
            Ok(value) => Ok(value),
            Err(fault) => Err(token.bad(FaultKind::BadHex, fault)),
        }
    }

    /// A list of numbers.
    pub fn list(&mut self) -> Result<Ints, LineFault>
        ensures { Reads (Field.List ∷ []) (λ x. list x ∷ []) self.old self.new result }
    {
        let token = self.token()?;
        match token_text::read_ints(token.text) {
            Ok(value) => Ok(value),
            Err(fault) => Err(token.bad(FaultKind::BadNumber, fault)),
        }
    }

    /// A list of ranks to be translated.
    pub fn null_list(&mut self) -> Result<RankArgs, LineFault>
        ensures { Reads (Field.NullList ∷ []) (λ x. null_list x ∷ []) self.old self.new result }
    {
        let token = self.token()?;
        match token_text::read_rank_args(token.text) {
            Ok(value) => Ok(value),
            Err(fault) => Err(token.bad(FaultKind::BadNumber, fault)),
        }
    }

    /// A list of ranges of ranks.
    pub fn triplet_list(&mut self) -> Result<Triplets, LineFault>
        ensures { Reads (Field.TripletList ∷ []) (λ x. triplet_list x ∷ []) self.old self.new result }
    {
        let token = self.token()?;
        match token_text::read_triplets(token.text) {
            Ok(value) => Ok(value),
            Err(fault) => Err(token.bad(FaultKind::BadNumber, fault)),
        }
    }

    /// A rank to send to, or the null process.
    pub fn dest(&mut self) -> Result<Option<u32>, LineFault>
        ensures { Reads (Field.Dest ∷ []) (λ x. dest x ∷ []) self.old self.new result }
    {
        let token = self.token()?;
        match token_text::read_num_or(b"null", token.text) {
            Ok(value) => Ok(value),
            Err(fault) => Err(token.bad(FaultKind::BadNumber, fault)),
        }
    }

    /// A rank to receive from, any or the null process.
    pub fn source(&mut self) -> Result<SrcArg, LineFault>
        ensures { Reads (Field.Source ∷ []) (λ x. source x ∷ []) self.old self.new result }
    {
        let token = self.token()?;
        match token_text::read_source(token.text) {
            Ok(value) => Ok(value),
            Err(fault) => Err(token.bad(FaultKind::BadNumber, fault)),
        }
    }

    /// A tag, or any.
    pub fn tag_or_any(&mut self) -> Result<Option<u32>, LineFault>
        ensures { Reads (Field.TagOrAny ∷ []) (λ x. tag_or_any x ∷ []) self.old self.new result }
    {
        let token = self.token()?;
        match token_text::read_num_or(b"any", token.text) {
            Ok(value) => Ok(value),
            Err(fault) => Err(token.bad(FaultKind::BadNumber, fault)),
        }
    }

    /// A colour, or the undefined one.
    pub fn colour(&mut self) -> Result<Option<i32>, LineFault>
        ensures { Reads (Field.Colour ∷ []) (λ x. colour x ∷ []) self.old self.new result }
    {
        let token = self.token()?;
        match token_text::read_int_or(b"undefined", token.text) {
            Ok(value) => Ok(value),
            Err(fault) => Err(token.bad(FaultKind::BadNumber, fault)),
        }
    }

    fn arrow(&mut self) -> Result<(), LineFault>
        ensures { Reads (Field.Arrow ∷ []) (λ _. arrow ∷ []) self.old self.new result }
    {
        let token = self.token()?;
        if token.text == b"->".as_slice() {
            Ok(())
        } else {
            Err(token.fault(FaultKind::UnknownWord))
        }
    }

    /// The arrow, and the name behind it.
    pub fn target(&mut self) -> Result<Name, LineFault>
        ensures { Reads (Field.Arrow ∷ Field.Name ∷ []) (λ x. arrow ∷ name x ∷ []) self.old self.new result }
    {
        self.arrow()?;
        self.name()
    }

    /// That no token is left.
    pub fn finish(&self) -> Result<(), LineFault>
        ensures done { OnOk result (self.now.tokens ≡ []) }
        ensures extra { IfErr result (λ e. end_fault (Ok self.now.tokens) ≡ Some e) }
    {
        let mut ahead = Reader {
            rest: self.rest,
            column: self.column,
        };
        match ahead.token() {
            Err(_) => Ok(()),
            Ok(token) => Err(token.fault(FaultKind::Extra)),
        }
    }
}
