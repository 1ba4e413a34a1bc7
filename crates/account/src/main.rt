// The program: a record file on standard input, its answer on standard output.
// Kept: buffers with a count, by a rule of the project: a fixed memory, no heap.
#![tactic(auto)]

mod answer;

use crate::answer::{SEEN, answer_input};
use std::env::FillError;
use std::io;
use std::rt::Env;

fn main(rt: HostRuntime) -> io::Result<()> {
    let err = rt.stderr();
    // Kept: asked in each program's `main`, by a rule of the project: a public call owes a promise for every input, and none can say which arguments come.
    // An argument, which a caller may take for the file's name, is refused before anything is read. Its text is not asked for, so one byte is room enough.
    if !matches!(rt.arg(1, &mut [0]), Err(FillError::NotPresent)) {
        return err.write_all(
            b"usage: account < FILE (a record file on standard input, no arguments); nothing is stated\n",
        );
    }
    let mut file = [0; SEEN];
    let mut text = [0; 8192];
    let Ok(n) = answer_input(&mut rt.stdin(), &mut file, &mut text) else {
        return err.write_all(b"account: the input could not be read, nothing is stated\n");
    };
    rt.stdout().write_all(&text[..n]).or_else(|_| err.write_all(
        b"account: the answer could not be written\n",
    ))
}
