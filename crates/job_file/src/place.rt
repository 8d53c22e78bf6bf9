//! Places of a text.
ghost use Rattle.std.specs.Prelude.{◌≡◌, ◌≤◌, ◌<◌, ◌-◌, ◌^◌, length};
ghost use Rattle.job_file.specs.Jobs.{place_behind, IsPlaceOf};

/// The line and the column behind some bytes, both from 1. A column counts bytes.
fn behind(front: &[u8]) -> (u32, u32)
    requires { length front.now < 2 ^ 32 - 1 }
    ensures { result ≡ place_behind (1, 1) front.now }
{
    let mut line = 1;
    let mut column = 1;
    'bytes: for byte in front {
        if *byte == b'\n' {
            line += 1;
            column = 1;
        } else {
            column += 1;
        }
    }
    (line, column)
}

/// The line and the column of the byte with so many bytes in front of it, or of the end of the text.
pub(crate) fn place_of(bytes: &[u8], count: usize) -> (u32, u32)
    requires few { length bytes.now < 2 ^ 32 - 1 }
    requires inside { count ≤ length bytes.now }
    ensures { IsPlaceOf bytes.now count result.0 result.1 }
{
    let (front, _) = bytes.split_at(count);
    behind(front)
}
