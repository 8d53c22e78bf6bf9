//! How bytes get into a buffer.
ghost use Rattle.std.specs.Prelude.{◌≡◌, ◌++◌, min, length, take, drop};

/// Copies at most `piece` bytes to the front of the buffer, as many as there are and as it has room
/// for, and says how many.
pub(crate) fn fill(left: &[u8], piece: usize, buf: &mut [u8]) -> usize
    ensures count { result ≡ min piece (min (length buf.old) (length left.now)) }
    ensures moved { left.now ≡ take result buf.new ++ drop result left.now }
    ensures filled { buf.new ≡ take result left.now ++ drop result buf.old }
{
    let count = piece.min(buf.len().min(left.len()));
    buf[..count].copy_from_slice(&left[..count]);
    count
}
