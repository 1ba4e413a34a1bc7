// Reads from readers that are made up: over a slice, a byte at a time, and one that fails in mid-stream.
ghost use Rattle.std.specs.Prelude.{Some};

use crate::{ReadFailed, read_pieces};
use std::io;
use std::io::Read;

// Gives one byte a call.
#[derive(Drop)]
struct Drip<'a> {
    rest: &'a [u8],
}

impl Read for Drip<'_> {
    ghost remaining = { λ d. Some d.rest.now };

    fn read(&mut self, buf: &mut [u8]) -> io::Result<usize> {
        let rest = self.rest;
        if rest.is_empty() || buf.is_empty() {
            return Ok(0);
        }
        buf[0] = rest[0];
        self.rest = &rest[1..];
        Ok(1)
    }
}

// Gives sevens, and fails once it has given so many.
#[derive(Drop)]
struct Broken {
    left: u8,
}

impl Read for Broken {
    fn read(&mut self, buf: &mut [u8]) -> io::Result<usize> {
        if self.left == 0 {
            return Err(io::ErrorKind::Interrupted.into());
        }
        if buf.is_empty() {
            return Ok(0);
        }
        self.left -= 1;
        buf[0] = 7;
        Ok(1)
    }
}

#[test]
fn reads_to_the_end_or_until_the_buffer_is_full(rt: HostRuntime) {
    for piece in [0, 1, 3, 4, 100] {
        let mut longer = [b'.'; 7];
        let mut all: &[u8] = b"hello";
        let got = read_pieces(&mut all, &mut longer, piece);
        assert_eq!(rt; got, Ok(5), "in pieces of {piece}");
        assert_eq!(rt; &longer[..], &b"hello.."[..]);
        assert_eq!(rt; all.len(), 0);
        let mut shorter = [b'.'; 4];
        let mut all: &[u8] = b"hello";
        let got = read_pieces(&mut all, &mut shorter, piece);
        assert_eq!(rt; got, Ok(4), "in pieces of {piece}");
        assert_eq!(rt; &shorter[..], &b"hell"[..]);
        assert_eq!(rt; all, &b"o"[..]);
        let mut drip = Drip { rest: b"hello" };
        let mut longer = [b'.'; 7];
        let got = read_pieces(&mut drip, &mut longer, piece);
        assert_eq!(rt; got, Ok(5), "in pieces of {piece}");
        assert_eq!(rt; &longer[..], &b"hello.."[..]);
    }
}

#[test]
fn a_failure_is_no_end(rt: HostRuntime) {
    let mut buf = [b'.'; 5];
    let got = read_pieces(&mut Broken { left: 3 }, &mut buf, 2);
    assert_eq!(rt; got, Err(ReadFailed { count: 3 }));
    assert_eq!(rt; &buf[..], &[7, 7, 7, b'.', b'.'][..]);
    let got = read_pieces(&mut Broken { left: 5 }, &mut buf, 2);
    assert_eq!(rt; got, Ok(5));
}
