//! Texts cut at a mark.
ghost use Rattle.std.specs.Prelude.{◌≡◌, ◌<◌, ◌==◌, position, IfSome, length, if◌then◌else◌, Some, None};
ghost use Rattle.std.specs.Option.{option_copied};
ghost use Rattle.token_text.specs.Texts.{is_wrapped, inside};
ghost use Rattle.token_text.specs.Lists.{parts_of, items_of};
ghost use Rattle.token_text.specs.Steps.{first_of, others_of, Ahead};

use std::marker::Model;

/// The parts that are still to come.
#[derive(Drop)]
pub(crate) struct Parts<'a> {
    mark: u8,
    rest: Option<&'a [u8]>,
}

impl<'a> Model for Parts<'a> {
    ghost use Rattle.std.specs.Option.{option_copied};
    ghost use Rattle.token_text.specs.Steps.{Ahead, parts_ahead};

    ghost Value = { Ahead };

    ghost view = { λ p. record { mark = p.mark; parts = parts_ahead p.mark (option_copied p.rest) } };
}

fn first_mark(mark: u8, text: &[u8]) -> Option<usize>
    ensures value { result ≡ position (λ b. b == mark) text.now }
    ensures bound { IfSome result (λ i. i < length text.now) }
{
    text.iter().position(|byte| *byte == mark)
}

impl<'a> Parts<'a> {
    /// The parts between marks; an empty text has none.
    pub(crate) fn new(mark: u8, text: &'a [u8]) -> Parts<'a>
        ensures { result ≡ record { mark = mark; parts = parts_of mark text.now } }
    {
        let rest = if text.is_empty() { None } else { Some(text) };
        Parts { mark, rest }
    }

    /// The next part.
    pub(crate) fn next(&mut self) -> Option<&'a [u8]>
        ensures part { option_copied result ≡ first_of self.old.parts }
        ensures rest { self.new ≡ record self.old { parts = others_of self.old.parts } }
    {
        let rest = self.rest?;
        match first_mark(self.mark, rest) {
            None => {
                self.rest = None;
                Some(rest)
            }
            Some(place) => {
                let (part, behind) = rest.split_at(place);
                let (_, rest) = behind.split_at(1);
                self.rest = Some(rest);
                Some(part)
            }
        }
    }
}

fn between_brackets(token: &[u8]) -> Option<&[u8]>
    ensures { option_copied result ≡ (if is_wrapped 91 93 token.now then Some (inside token.now) else None) }
{
    match token {
        [b'[', items @ .., b']'] => Some(items),
        _ => None,
    }
}

/// The items of a list; None exactly where the token has no brackets at its ends.
pub(crate) fn items(token: &[u8]) -> Option<Parts<'_>>
    ensures { result ≡ (if is_wrapped 91 93 token.now then Some (record { mark = 44; parts = items_of token.now }) else None) }
{
    Some(Parts::new(b',', between_brackets(token)?))
}
