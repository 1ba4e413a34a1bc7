// Answers every file of a corpus: each comes on standard input with its length in four bytes before it, little-endian.
// Kept: buffers with a count, by a rule of the project: a fixed memory, no heap.
#![tactic(auto)]

use std::io;
use std::io::Read;
use std::ops::ControlFlow;

// The text that the program prints; for a file that is too long for the program, the library's own answer behind it.
fn answer(out: &impl Print, file: &[u8]) -> io::Result<()> {
    let mut text = [0; 8192];
    let k = printed::program_text(file, &mut text);
    out.write_all(&text[..k])?;
    if file.len() > 65536 {
        let n = printed::answer_text(file, &mut text);
        out.write_all(&text[..n])?;
    }
    Ok(())
}

// One file answered; a break at the end of the corpus. A length is read in pieces of 3 bytes and a file in pieces of the size given, so that both are put
// together from several reads.
fn next(
    from: &mut impl Read,
    out: &impl Print,
    buf: &mut [u8],
    piece: usize,
) -> io::Result<ControlFlow<()>> {
    let mut length = [0; 4];
    if input::read_pieces(from, &mut length, 3) != Ok(4) {
        return Ok(ControlFlow::Break(()));
    }
    let n = u32::from_le_bytes(length) as usize;
    let Some(file) = buf.get_mut(..n) else {
        out.write_all(b"too long for this corpus\n")?;
        return Ok(ControlFlow::Break(()));
    };
    if input::read_pieces(from, file, piece) != Ok(n) {
        out.write_all(b"cut short\n")?;
        return Ok(ControlFlow::Break(()));
    }
    answer(out, file)?;
    Ok(ControlFlow::Continue(()))
}

// In pieces of odd sizes, another from file to file. A proved loop has to end: it takes more sizes than a corpus has files.
fn answer_all(from: &mut impl Read, out: &impl Print, buf: &mut [u8]) -> io::Result<()> {
    for piece in [7, 1, 4099].into_iter().cycle().take(1_000_000) {
        if next(from, out, buf, piece)?.is_break() {
            break;
        }
    }
    Ok(())
}

// Room for files that are too long for the program, too.
fn main(rt: HostRuntime) -> io::Result<()> {
    let mut buf = [0; 100_000];
    answer_all(&mut rt.stdin(), &rt.stdout(), &mut buf)
}
