//! The words of the command line that tell a generated job.
ghost use Rattle.std.specs.Prelude.{◌≡◌, ◌≤◌, IfSome};
ghost use Rattle.job_gen.specs.Words.{told_by};

use crate::job::{LEAST_OPS, MOST_OPS};
use token_text::read_number;

/// The number of a job and the most operations that it may have, as two words tell them: a number below
/// 2 to the 64th, and one from [`LEAST_OPS`] to [`MOST_OPS`]. Neither has a sign or a leading zero. None
/// exactly where the words tell no such numbers.
pub fn read_words(number: &str, ops: &str) -> Option<(u64, u32)>
    ensures told { result ≡ told_by number.now ops.now }
    ensures least { IfSome result (λ told. LEAST_OPS ≤ told.1) }
    ensures most { IfSome result (λ told. told.1 ≤ MOST_OPS) }
{
    let Ok(number) = read_number(u64::MAX, number.as_bytes()) else {
        return None;
    };
    let Ok(ops) = read_number(u64::from(MOST_OPS), ops.as_bytes()) else {
        return None;
    };
    if ops < u64::from(LEAST_OPS) {
        return None;
    }
    Some((number, ops as u32))
}
