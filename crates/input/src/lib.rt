// The input of a program: a reader's bytes, read into a lent buffer.
#![tactic(auto)]

ghost use Rattle.std.specs.Prelude.{◌<◌, ◌≡◌, false, length, take};
ghost use Rattle.std.specs.Io.KnownBytes.{Consumes, IsAtEnd};
ghost use Rattle.input.specs.Asked.{room, Asked};
ghost use Rattle.input.specs.Reads.{Delivered};
ghost use Rattle.input.specs.Got.{got};

use std::io;
use std::io::Read;

// A read that failed, which is not the end of the input, and how many bytes had come before it.
#[derive(Clone, Copy, Debug, PartialEq, Eq)]
pub struct ReadFailed {
    pub count: usize,
}

// How many of the bytes that are left a read is lent.
fn room_of(piece: usize, left: usize) -> usize
    requires { 0 < left }
    ensures { result ≡ room piece left }
{
    piece.max(1).min(left)
}

// One read, into the part behind the bytes that came before. No other call of `read` stands in this crate.
fn read_piece<R: Read>(from: &mut R, buf: &mut [u8], at: usize, piece: usize) -> io::Result<usize>
    requires { at < length buf.old }
    ensures { Asked R.remaining piece at from.old from.new buf.old buf.new result }
{
    let to = at + room_of(piece, buf.len() - at);
    from.read(&mut buf[at..to])
}

// Reads until the input ends, the buffer is full or a read fails, at most `piece` bytes at a time: a pipe hands out less than it was asked for. A read that a
// signal interrupts has failed like any other.
pub fn read_pieces<R: Read>(from: &mut R, buf: &mut [u8], piece: usize) -> Result<usize, ReadFailed>
    ensures delivered { Delivered R.remaining piece from.old from.new buf.old buf.new (got result) }
    ensures consumed { Consumes (R.remaining from.old) (R.remaining from.new) (take (got result).count buf.new) }
    ensures ended { (got result).failed ≡ false → (got result).count < length buf.new → IsAtEnd (R.remaining from.new) }
{
    let mut count = 0;
    // Kept: a `while`. How many reads there are is the reader's to say, so a `for` is no plainer.
    while count < buf.len() {
        match read_piece(from, buf, count, piece) {
            Ok(0) => break,
            Ok(n) => count += n,
            Err(_) => return Err(ReadFailed { count }),
        }
    }
    Ok(count)
}

#[cfg(test)]
mod tests;
