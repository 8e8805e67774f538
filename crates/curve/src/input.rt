// The two files: their bytes, and the numbers of the path.
ghost use Rattle.std.specs.Prelude.{◌≡◌, ◌≤◌, length};
ghost use Rattle.curve.specs.Private.Reading.{Decoded};
ghost use Rattle.curve.specs.Buffers.{family_room, path_room};

use crate::buffer::{Buffer, read};
use reader::bytes::number_at;
use std::rt::Files;

// The longest legal family has 16 + 2 * 4,096 + 6 * 8,191 = 57,354 bytes. One more is read, so that a longer file is refused.
pub(crate) const FAMILY_ROOM: usize = 57355;

// The longest legal path has 4,096 numbers of 2 bytes. One number more is read, for the same reason.
pub(crate) const PATH_ROOM: usize = 8194;

pub(crate) fn read_family(rt: &impl Files) -> Buffer<FAMILY_ROOM>
    ensures { FAMILY_ROOM ≡ family_room }
{
    read(rt, "family.phf")
}

pub(crate) fn read_path(rt: &impl Files) -> Buffer<PATH_ROOM>
    ensures { PATH_ROOM ≡ path_room }
{
    read(rt, "path.u16")
}

// The numbers of the path; returns how many. A last odd byte is left out.
pub(crate) fn decode(bytes: &[u8], numbers: &mut [u16; 4097]) -> usize
    requires { length bytes.now ≤ path_room }
    ensures { Decoded bytes.now numbers.new result }
{
    let n = bytes.len() / 2;
    for i in 0..n {
        numbers[i] = number_at(bytes, 2 * i);
    }
    n
}
