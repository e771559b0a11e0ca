// Reads a file of cases.
ghost use Rattle.std.specs.Prelude.{◌<◌, ◌≤◌, length, take, IfOk};
ghost use Rattle.std.specs.Io.KnownBytes.{Consumes, IsAtEnd};

use std::io;
use std::io::Read;

// Reads to the reader's end, or until the room for it is full. Answers how many bytes came.
pub fn read_full<R: Read>(reader: &mut R, room: &mut [u8]) -> io::Result<usize>
    ensures within { IfOk result (λ n. n ≤ length room.new) }
    ensures bytes { IfOk result (λ n. Consumes (R.remaining reader.old) (R.remaining reader.new) (take n room.new)) }
    ensures end { IfOk result (λ n. n < length room.new → IsAtEnd (R.remaining reader.new)) }
{
    // A loop: std reads to the end into a `Vec`, or fails where the room isn't filled.
    let mut count = 0;
    while count < room.len() {
        let got = reader.read(&mut room[count..])?;
        if got == 0 {
            break;
        }
        count += got;
    }
    Ok(count)
}
