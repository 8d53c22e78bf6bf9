//! The line that tokens are written to.
ghost use Rattle.std.specs.Prelude.{◌≡◌, ◌≤◌, ◌+◌, ◌++◌, length};

use arrayvec::ArrayVec;

/// A line of a script or a journal, at most 2,048 bytes.
pub type Line = ArrayVec<u8, 2048>;

/// Adds a text at the end.
pub fn put(out: &mut Line, text: &[u8])
    requires room { length out.old.items + length text.now ≤ 2048 }
    ensures added { out.new.items ≡ out.old.items ++ text.now }
{
    let _ = out.try_extend_from_slice(text);
}
