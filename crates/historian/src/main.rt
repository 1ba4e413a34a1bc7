// The program: the historian's text on standard input, its day records on standard output.
// Kept: buffers with a count, by a rule of the project: a fixed memory, no heap.
#![tactic(auto)]

use rules::{Refusal, Refused};
use std::env::FillError;
use std::io;
use std::rt::Env;
use text::Said;

// What refuses the text, and at which line: on standard error, so that standard output has records or nothing.
fn refuse(err: &impl Print, refused: Refused) -> io::Result<()> {
    let mut said = [0; 8192];
    let n = text::said_text(&mut said, Said::from(refused));
    err.write_all(&said[..n])
}

// The records of a text.
fn bring_in(out: &impl Print, err: &impl Print, text: &[u8]) -> io::Result<()> {
    let mut records = [0; 18_860];
    match import::import_days(text, &mut records) {
        Ok(n) => out.write_all(&records[..n]).or_else(|_| err.write_all(
            b"historian: the records could not be written\n",
        )),
        Err(refused) => refuse(err, refused),
    }
}

fn main(rt: HostRuntime) -> io::Result<()> {
    let err = rt.stderr();
    // Kept: asked in each program's `main`, by a rule of the project: a public call owes a promise for every input, and none can say which arguments come.
    // An argument, which a caller may take for the file's name, is refused before anything is read. Its text is not asked for, so one byte is room enough.
    if !matches!(rt.arg(1, &mut [0]), Err(FillError::NotPresent)) {
        return err.write_all(
            b"usage: historian < FILE > DAYS (a text on standard input, no arguments); nothing is written\n",
        );
    }
    let mut file = [0; 65537];
    let Ok(n) = input::read_pieces(&mut rt.stdin(), &mut file, 65537) else {
        return err.write_all(b"historian: the input could not be read, nothing is written\n");
    };
    if n > 65536 {
        // Kept: place 0 written out: a call for it would hide the 0 and be no plainer.
        let refusal = Refusal::TooLong;
        return refuse(&err, Refused { refusal, place: 0 });
    }
    bring_in(&rt.stdout(), &err, &file[..n])
}
