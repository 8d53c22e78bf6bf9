//! Single tokens of a line, read.
ghost use Rattle.std.specs.Prelude.{◌≡◌, [], ◌∷◌, IfSome, IfNone};
ghost use Rattle.token_text.specs.Numbers.{number_form};
ghost use Rattle.token_text.specs.Texts.{pset_name_form, tag_form};
ghost use Rattle.token_text.specs.Lists.{rank_outs_form, members_form};
ghost use Rattle.script_text.specs.Tokens.{texts};
ghost use Rattle.entry_text.specs.Words.{word_text};
ghost use Rattle.entry_text.specs.Labels.{most_8, most_16, most_32, sent_form, own_rank_form};
ghost use Rattle.entry_text.specs.LabelForms.{labelled_form, picked_form, class_form, round_form};
ghost use Rattle.entry_text.specs.Parts.{Reads, ReadsWord, ReadsEnd, one_token, text_part};

use crate::labels::{read_class, read_labelled, read_own_rank, read_picked, read_round, read_sent};
use crate::words::{Word, text_of, word_of};
use mpi_base::{ErrClass, Members, PsetName, RankOuts, Said, StringTag};
use script_text::Reader;

/// The next token.
pub fn text<'a>(reader: &mut Reader<'a>) -> Option<&'a [u8]>
    ensures some { IfSome result (λ t. texts reader.old.tokens ≡ t.now ∷ texts reader.new.tokens) }
    ensures none { IfNone result (texts reader.old.tokens ≡ []) }
    ensures left { IfNone result (texts reader.new.tokens ≡ []) }
{
    match reader.token() {
        Ok(token) => Some(token.text),
        Err(_) => None,
    }
}

/// The next token as a word.
#[tactic(auto, using(crate::proofs::Takes::word_read, crate::proofs::Takes::word_none))]
pub fn word(reader: &mut Reader) -> Option<Word>
    ensures { ReadsWord reader.old reader.new result }
{
    word_of(text(reader)?)
}

/// The next token as a word, or that the line ends.
#[tactic(auto, using(crate::proofs::Takes::word_some, crate::proofs::Takes::word_other))]
pub fn word_or_end(reader: &mut Reader) -> Option<Option<Word>>
    ensures { ReadsEnd reader.old reader.new result }
{
    let Some(text) = text(reader) else {
        return Some(None);
    };
    match word_of(text) {
        Some(word) => Some(Some(word)),
        None => None,
    }
}

/// This text, as the next token.
#[tactic(auto, using(crate::proofs::Takes::text_read, crate::proofs::Takes::text_other, crate::proofs::Takes::text_none))]
pub fn exactly(reader: &mut Reader, wanted: &[u8]) -> Option<()>
    ensures { Reads (text_part wanted.now) reader.old reader.new result }
{
    if text(reader)? == wanted {
        Some(())
    } else {
        None
    }
}

/// This word, as the next token.
pub fn this(reader: &mut Reader, wanted: Word) -> Option<()>
    ensures { Reads (text_part (word_text wanted)) reader.old reader.new result }
{
    exactly(reader, text_of(wanted))
}

/// The next token as a number.
#[tactic(auto, using(crate::proofs::Takes::taking))]
pub fn number(reader: &mut Reader, most: u64) -> Option<u64>
    ensures { Reads (one_token (number_form most)) reader.old reader.new result }
{
    token_text::read_number(most, text(reader)?).ok()
}

/// The next token as a number of 8 bits.
pub fn byte(reader: &mut Reader) -> Option<u8>
    ensures { Reads (one_token (number_form most_8)) reader.old reader.new result }
{
    Some(number(reader, 255)? as u8)
}

/// The next token as a number of 16 bits.
pub fn short(reader: &mut Reader) -> Option<u16>
    ensures { Reads (one_token (number_form most_16)) reader.old reader.new result }
{
    Some(number(reader, 65_535)? as u16)
}

/// The next token as a number of 32 bits.
pub fn wide(reader: &mut Reader) -> Option<u32>
    ensures { Reads (one_token (number_form most_32)) reader.old reader.new result }
{
    Some(number(reader, 4_294_967_295)? as u32)
}

/// The next token as a number behind a label.
#[tactic(auto, using(crate::proofs::Takes::taking))]
pub fn labelled(reader: &mut Reader, label: &[u8], most: u64) -> Option<u64>
    ensures { Reads (one_token (labelled_form label.now most)) reader.old reader.new result }
{
    read_labelled(label, most, text(reader)?).ok()
}

/// The next token as a number of 16 bits behind a label.
pub fn labelled_short(reader: &mut Reader, label: &[u8]) -> Option<u16>
    ensures { Reads (one_token (labelled_form label.now most_16)) reader.old reader.new result }
{
    Some(labelled(reader, label, 65_535)? as u16)
}

/// The next token as a number of 8 bits behind a label.
pub fn labelled_byte(reader: &mut Reader, label: &[u8]) -> Option<u8>
    ensures { Reads (one_token (labelled_form label.now most_8)) reader.old reader.new result }
{
    Some(labelled(reader, label, 255)? as u8)
}

/// The next token as a number of 32 bits behind a label.
pub fn labelled_wide(reader: &mut Reader, label: &[u8]) -> Option<u32>
    ensures { Reads (one_token (labelled_form label.now most_32)) reader.old reader.new result }
{
    Some(labelled(reader, label, 4_294_967_295)? as u32)
}

/// The next token as a string tag.
#[tactic(auto, using(crate::proofs::Takes::taking))]
pub fn tag(reader: &mut Reader) -> Option<StringTag>
    ensures { Reads (one_token tag_form) reader.old reader.new result }
{
    token_text::read_quoted(text(reader)?).ok()
}

/// The next token as a list of ranks.
#[tactic(auto, using(crate::proofs::Takes::taking))]
pub fn members(reader: &mut Reader) -> Option<Members>
    ensures { Reads (one_token members_form) reader.old reader.new result }
{
    token_text::read_members(text(reader)?).ok()
}

/// The next token as a list of translated ranks.
#[tactic(auto, using(crate::proofs::Takes::taking))]
pub fn rank_outs(reader: &mut Reader) -> Option<RankOuts>
    ensures { Reads (one_token rank_outs_form) reader.old reader.new result }
{
    token_text::read_rank_outs(text(reader)?).ok()
}

/// The next token as a name of a process set.
#[tactic(auto, using(crate::proofs::Takes::taking))]
pub fn pset_name(reader: &mut Reader) -> Option<PsetName>
    ensures { Reads (one_token pset_name_form) reader.old reader.new result }
{
    token_text::read_pset_name(text(reader)?).ok()
}

/// The next token as a rank and a message's number.
#[tactic(auto, using(crate::proofs::Takes::taking))]
pub fn sent(reader: &mut Reader) -> Option<(u16, u64)>
    ensures { Reads (one_token sent_form) reader.old reader.new result }
{
    read_sent(text(reader)?).ok()
}

/// The next token as a picked context, or none.
#[tactic(auto, using(crate::proofs::Takes::taking))]
pub fn picked(reader: &mut Reader) -> Option<Option<u16>>
    ensures { Reads (one_token picked_form) reader.old reader.new result }
{
    read_picked(text(reader)?).ok()
}

/// The next token as a rank, or none.
#[tactic(auto, using(crate::proofs::Takes::taking))]
pub fn own_rank(reader: &mut Reader) -> Option<Option<u16>>
    ensures { Reads (one_token own_rank_form) reader.old reader.new result }
{
    read_own_rank(text(reader)?).ok()
}

/// The next token as an error class.
#[tactic(auto, using(crate::proofs::Takes::taking))]
pub fn class(reader: &mut Reader) -> Option<ErrClass>
    ensures { Reads (one_token class_form) reader.old reader.new result }
{
    read_class(text(reader)?).ok()
}

/// The next token as what a packet says of a round.
#[tactic(auto, using(crate::proofs::Takes::taking))]
pub fn round_said(reader: &mut Reader) -> Option<Said>
    ensures { Reads (one_token round_form) reader.old reader.new result }
{
    read_round(text(reader)?).ok()
}
