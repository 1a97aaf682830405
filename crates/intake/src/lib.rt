// Bytes read into lent room.
#![tactic(auto)]

ghost use Rattle.std.specs.Prelude.{IfOk, OnErr, ◌≡◌, ◌<◌, length, take};
ghost use Rattle.std.specs.Io.KnownBytes.{Consumes, IsAtEnd};
ghost use Rattle.intake.specs.Count.{IsPrefixLen};

use std::io;
use std::io::Read;

// Reads until the room is full or the input ends: how many bytes stand at the start of the room.
pub fn read_full<R: Read>(from: &mut R, room: &mut [u8]) -> io::Result<usize>
    ensures count { IfOk result (λ n. IsPrefixLen n room.new) }

    // Where the reader's bytes are known: the room begins with the first of them, and fewer than it holds only where no more are left.
    ensures bytes { IfOk result (λ n. Consumes (R.remaining from.old) (R.remaining from.new) (take n room.new)) }
    ensures end { IfOk result (λ n. n < length room.new → IsAtEnd (R.remaining from.new)) }

    // A read that fails leaves the room as long as it was, and says nothing of what stands in it.
    ensures err { OnErr result (length room.new ≡ length room.old) }
{
    let mut done = 0;
    while done < room.len() {
        let n = from.read(&mut room[done..])?;
        if n == 0 {
            break;
        }
        done += n;
    }
    Ok(done)
}
