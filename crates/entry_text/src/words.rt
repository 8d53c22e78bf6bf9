//! The words of a journal.
ghost use Rattle.std.specs.Prelude.{◌≡◌, ◌≤◌, length, find, bytes_eq, IfSome, IfNone};
ghost use Rattle.entry_text.specs.Words.{word_text, word_in};
ghost use Rattle.entry_text.specs.declared.words.Word.{Word as AnyWord};

/// A word of a journal's lines.
#[derive(Clone, Copy, Debug, Drop, PartialEq, Eq)]
pub enum Word {
    /// `call`.
    Call,
    /// `answer`.
    Answer,
    /// `deliver`.
    Deliver,
    /// `offer`.
    Offer,
    /// `settle`.
    Settle,
    /// `leave`.
    Leave,
    /// `back`.
    Back,
    /// `from`.
    From,
    /// `group`.
    Group,
    /// `dup`.
    Dup,
    /// `split`.
    Split,
    /// `share`.
    Share,
    /// `shares`.
    Shares,
    /// `up`.
    Up,
    /// `down`.
    Down,
    /// `msg`.
    Msg,
    /// `marker`.
    Marker,
    /// `own`.
    Own,
    /// `zero`.
    Zero,
    /// `ready`.
    Ready,
    /// `retry`.
    Retry,
    /// `pick`.
    Pick,
    /// `shared`.
    Shared,
    /// `#`.
    Mark,
    /// `match`.
    Match,
    /// `drop`.
    Drop,
    /// `=>`.
    Gives,
    /// `ok`.
    Fine,
    /// `err`.
    Err,
    /// `null`.
    Null,
    /// `psets`.
    Psets,
    /// `name`.
    Name,
    /// `info`.
    Info,
    /// `ranks`.
    Ranks,
    /// `ident`.
    Ident,
    /// `congruent`.
    Congruent,
    /// `similar`.
    Similar,
    /// `unequal`.
    Unequal,
    /// `size`.
    Size,
    /// `rank`.
    Rank,
    /// `comm`.
    Comm,
    /// `recv`.
    Received,
}

/// Picks the words or their texts out of rows.
macro_rules! pick {
    (all; $($word:ident $text:literal;)*) => {
        [$(Word::$word),*]
    };
    (text $found:expr; $($word:ident $text:literal;)*) => {
        match $found {
            $(Word::$word => $text),*
        }
    };
}

/// The rows: each word and its text.
macro_rules! words {
    ($($wanted:tt)*) => {
        pick! {
            $($wanted)*;
            Call b"call";
            Answer b"answer";
            Deliver b"deliver";
            Offer b"offer";
            Settle b"settle";
            Leave b"leave";
            Back b"back";
            From b"from";
            Group b"group";
            Dup b"dup";
            Split b"split";
            Share b"share";
            Shares b"shares";
            Up b"up";
            Down b"down";
            Msg b"msg";
            Marker b"marker";
            Own b"own";
            Zero b"zero";
            Ready b"ready";
            Retry b"retry";
            Pick b"pick";
            Shared b"shared";
            Mark b"#";
            Match b"match";
            Drop b"drop";
            Gives b"=>";
            Fine b"ok";
            Err b"err";
            Null b"null";
            Psets b"psets";
            Name b"name";
            Info b"info";
            Ranks b"ranks";
            Ident b"ident";
            Congruent b"congruent";
            Similar b"similar";
            Unequal b"unequal";
            Size b"size";
            Rank b"rank";
            Comm b"comm";
            Received b"recv";
        }
    };
}

/// The text of a word, at most 9 bytes.
pub fn text_of(word: Word) -> &'static [u8]
    ensures text { result.now ≡ word_text word }
    ensures short { length result.now ≤ 9 }
{
    words!(text word)
}

fn first_with<const N: usize>(words: &[Word; N], text: &[u8]) -> Option<Word>
    ensures { result ≡ find (λ w. bytes_eq (word_text w) text.now) words.now }
{
    words.iter().copied().find(|word| text_of(*word) == text)
}

/// The word with this text; None exactly where no word has it.
pub fn word_of(text: &[u8]) -> Option<Word>
    ensures value { result ≡ word_in text.now }
    ensures found { IfSome result (λ w. word_text w ≡ text.now) }
{
    first_with(&words!(all), text)
}
