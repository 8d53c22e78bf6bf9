//! The commands of the program.
ghost use Rattle.std.specs.Prelude.{◌≡◌, IfSome};
ghost use Rattle.mpisess.specs.Commands.{named_by, generated_by, command_of};
ghost use Rattle.mpisess.specs.Reading.{IsInRange};
ghost use Rattle.job_gen.specs.Words.{told_by};

use job_gen::read_words;

/// Where the job of a session comes from, and what is written of it.
#[derive(Clone, Copy, Debug, PartialEq, Eq, Drop)]
pub enum Command {
    /// The input is a job file of many ranks.
    Serial,
    /// The input is the script of one rank.
    Solo,
    /// The job is made from a number, and nothing is read; the summary is written.
    Gen {
        /// The number.
        number: u64,
        /// The most operations that the job may have.
        ops: u32,
    },
}

/// The command that the words of the command line name.
pub(crate) fn command_in(words: &[String]) -> Option<Command>
    ensures named { result ≡ command_of words.now }
    ensures range { IfSome result IsInRange }
{
    match words {
        [word] => named(word.as_str()),
        [word, number, ops] if word.as_str() == "gen" => generating(number.as_str(), ops.as_str()),
        _ => None,
    }
}

/// The command that the two words behind `gen` tell.
fn generating(number: &str, ops: &str) -> Option<Command>
    ensures named { result ≡ generated_by (told_by number.now ops.now) }
    ensures range { IfSome result IsInRange }
{
    let (number, ops) = read_words(number, ops)?;
    Some(Command::Gen { number, ops })
}

/// The command of one word.
fn named(word: &str) -> Option<Command>
    ensures named { result ≡ named_by word.now }
    ensures range { IfSome result IsInRange }
{
    if word == "serial" {
        return Some(Command::Serial);
    }
    if word == "solo" {
        return Some(Command::Solo);
    }
    None
}
