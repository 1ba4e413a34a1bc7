// The line that the program `checker` prints, behind its length.
ghost use Rattle.std.specs.Prelude.{◌≤◌, length};
ghost use Rattle.calls.specs.Answers.{Answered, filed_bytes};

use crate::bytes;

// The line is made, and it is written behind the number of its bytes.
pub fn answer(file: &[u8], text: &[u8], out: &mut [u8]) -> usize
    requires { 8_196 ≤ length out.old }
    ensures { Answered (filed_bytes file.now text.now) out.old out.new result }
{
    let mut line = [0; 8192];
    let k = filed::filed_text(file, text, &mut line);
    let line = &line[..k];
    bytes::put_counted(out, line.len() as u32, line)
}
