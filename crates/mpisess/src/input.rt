//! The input of the program: all bytes of a source, up to a limit.
ghost use Rattle.std.specs.Prelude.{◌≡◌, ◌≤◌, ◌+◌, true, Err, length, is_some, IfOk, OnOk};
ghost use Rattle.io_edge.specs.Counts.{Rose};
ghost use Rattle.mpisess.specs.Input.{ReadsAll, ReadsAtMost, TellsLong};
ghost use Rattle.mpisess.specs.Reading.{ReadsFront, ReadsWhole, was_ended};

use io_edge::{Failed, Source};
use std::alloc::{AllocError, Global};

/// The most bytes that an input may have: 4 MiB. Of a longer one the next byte is read, and no more.
pub(crate) const MOST_BYTES: usize = 4_194_304;

/// The most bytes that one read asks for.
const PIECE: usize = 4_096;

/// Why no input was read.
#[derive(Clone, Copy, Debug, PartialEq, Eq, Drop)]
pub(crate) enum InputError {
    /// The source failed, and counted the fault.
    Fault,
    /// There are more than [`MOST_BYTES`] bytes.
    TooLong,
    /// No memory was left.
    Memory,
}

impl From<Failed> for InputError {
    ghost use Rattle.std.specs.Prelude.{◌≡◌};
    ghost use Rattle.mpisess.specs.declared.input.InputError.TheVariants.{Fault};

    ghost from_gives = { λ _ error. error ≡ Fault };

    fn from(_error: Failed) -> InputError {
        InputError::Fault
    }
}

impl From<AllocError> for InputError {
    ghost use Rattle.std.specs.Prelude.{◌≡◌};
    ghost use Rattle.mpisess.specs.declared.input.InputError.TheVariants.{Memory};

    ghost from_gives = { λ _ error. error ≡ Memory };

    fn from(_error: AllocError) -> InputError {
        InputError::Memory
    }
}

/// Reads to the end of input, or to byte [`MOST_BYTES`] + 1 where the input is longer.
pub(crate) fn read_input<S: Source>(alloc: Global, source: &mut S) -> Result<Vec<u8>, InputError>
    ensures short { IfOk result (λ bytes. length bytes.items ≤ 4194304) }
    ensures read { IfOk result (λ bytes. ReadsWhole (S.left source.old) bytes.items) }
    ensures long { result ≡ Err InputError.TooLong → TellsLong (S.left source.old) }
    ensures all { was_ended result ≡ true → ReadsAll (S.left source.old) (S.left source.new) }
    ensures most { ReadsAtMost 4194305 (S.left source.old) (S.left source.new) }
    ensures same_count { was_ended result ≡ true → S.faults source.new ≡ S.faults source.old }
    ensures failed { result ≡ Err InputError.Fault → Rose (S.faults source.old) (S.faults source.new) }
    // Want of memory is no fault of the source.
    ensures memory { result ≡ Err InputError.Memory → S.faults source.new ≡ S.faults source.old }
    ensures never_falls { S.faults source.old ≤ S.faults source.new }
    ensures tells { is_some (S.left source.new) ≡ is_some (S.left source.old) }
{
    let bytes = read_front(alloc, source, MOST_BYTES + 1)?;
    if bytes.len() > MOST_BYTES {
        return Err(InputError::TooLong);
    }
    Ok(bytes)
}

/// Reads so many bytes, or to the end of input where there are fewer.
fn read_front<S: Source>(alloc: Global, source: &mut S, most: usize) -> Result<Vec<u8>, InputError>
    ensures short { IfOk result (λ bytes. length bytes.items ≤ most) }
    ensures read { IfOk result (λ bytes. ReadsFront most (S.left source.old) bytes.items (S.left source.new)) }
    ensures most { ReadsAtMost most (S.left source.old) (S.left source.new) }
    ensures same_count { OnOk result (S.faults source.new ≡ S.faults source.old) }
    ensures failed { result ≡ Err InputError.Fault → Rose (S.faults source.old) (S.faults source.new) }
    ensures memory { result ≡ Err InputError.Memory → S.faults source.new ≡ S.faults source.old }
    ensures not_long { result ≡ Err InputError.TooLong → ⊥ }
    ensures never_falls { S.faults source.old ≤ S.faults source.new }
    ensures tells { is_some (S.left source.new) ≡ is_some (S.left source.old) }
{
    let mut bytes = Vec::new(alloc);
    let mut piece = [0; PIECE];
    while bytes.len() < most {
        let wanted = PIECE.min(most - bytes.len());
        let count = source.read(&mut piece[..wanted])?;
        if count == 0 {
            return Ok(bytes);
        }
        bytes.extend_from_slice(&piece[..count])?;
    }
    Ok(bytes)
}
