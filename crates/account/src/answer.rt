// The input of the program, and its answer.
ghost use Rattle.account.specs.Answered.{Answered};

use input::ReadFailed;
use std::io::Read;

// One byte more than the most that is accepted, so that a longer input is seen and refused with 13.
pub const SEEN: usize = 65537;

// The whole file, as the reader gives it, and the length of its answer's text; no text where a read failed.
// Kept: a text's length, and not its slice, since that is what `Answered` and `printed::program_text` promise.
pub fn answer_input<R: Read>(
    from: &mut R,
    file: &mut [u8; SEEN],
    text: &mut [u8; 8192],
) -> Result<usize, ReadFailed>
    ensures { Answered R.remaining from.old from.new file.old file.new text.old text.new result }
{
    let n = input::read_pieces(from, file, SEEN)?;
    Ok(printed::program_text(&file[..n], text))
}
