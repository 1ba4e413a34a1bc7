// The program: a record file and the text of a filing on standard input, what is said of the filing on standard output. Before the file stand four bytes, its
// length, little-endian; the text is what comes behind it.
// Kept: buffers with a count, by a rule of the project: a fixed memory, no heap.
#![tactic(auto)]

use std::env::FillError;
use std::io;
use std::io::Read;
use std::rt::Env;

// The length before the record file, where it comes. One of 2^32 - 1 is answered like one that does not come.
fn length(from: &mut impl Read) -> Option<usize> {
    let mut four = [0; 4];
    let came = input::read_pieces(from, &mut four, 4) == Ok(4);
    came.then_some(u32::from_le_bytes(four))
        .filter(|n| *n != u32::MAX)
        .map(|n| n as usize)
}

// The line that is said of the frame; none where the file is cut short or a read failed. The longest file that is taken fills its room.
fn said<'a>(from: &mut impl Read, line: &'a mut [u8; 8192]) -> Option<&'a [u8]> {
    let mut file = [0; 65536];
    let mut text = [0; 65537];
    let n = length(from)?;
    let Some(file) = file.get_mut(..n) else {
        return Some(b"refused 13 0\n");
    };
    if input::read_pieces(from, file, 65536) != Ok(n) {
        return None;
    }
    let m = input::read_pieces(from, &mut text, 65537).ok()?;
    let k = filed::filed_text(file, &text[..m], line);
    Some(&line[..k])
}

fn main(rt: HostRuntime) -> io::Result<()> {
    let err = rt.stderr();
    // Kept: asked in each program's `main`, by a rule of the project: a public call owes a promise for every input, and none can say which arguments come.
    // An argument, which a caller may take for a file's name, is refused before anything is read. Its text is not asked for, so one byte is room enough.
    if !matches!(rt.arg(1, &mut [0]), Err(FillError::NotPresent)) {
        return err.write_all(
            b"usage: checker < FRAME (a record file behind its length, and a filed text, on standard input, no arguments); nothing is said\n",
        );
    }
    let mut line = [0; 8192];
    let Some(line) = said(&mut rt.stdin(), &mut line) else {
        return err.write_all(b"checker: the input could not be read, nothing is said\n");
    };
    rt.stdout().write_all(line).or_else(|_| err.write_all(
        b"checker: the answer could not be written\n",
    ))
}
