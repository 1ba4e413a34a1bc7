// Makes the calls of the frames on standard input and writes their answers: the proved side of a comparison with the independent reference.
#![tactic(auto)]

mod account_call;
mod bytes;
mod check_call;
mod filed_call;
mod frame;
mod import_call;
mod lent;
mod panel_call;
mod survey_call;

ghost use Rattle.calls.specs.Sized.{Sized};

use crate::frame::LONGEST;
use std::io;
use std::io::Read;

// A proved loop has to end: it counts more frames than a run has.
fn answer_all(
    from: &mut impl Read,
    to: &impl Print,
    err: &impl Print,
    room: &mut [u8],
    out: &mut [u8; LONGEST],
) -> io::Result<()> {
    for _ in 0..4_000_000_000u32 {
        if frame::next(from, to, err, room, out)?.is_break() {
            break;
        }
    }
    Ok(())
}

// Kept: a function of its own, for the bytes behind a header. A million zeros are too many for a proof to count, so their number is said here once.
fn room() -> [u8; 1_000_000]
    ensures { Sized 1_000_000 result }
{
    [0; 1_000_000]
}

fn main(rt: HostRuntime) -> io::Result<()> {
    let mut room = room();
    let mut out = [0; LONGEST];
    answer_all(
        &mut rt.stdin(),
        &rt.stdout(),
        &rt.stderr(),
        &mut room,
        &mut out,
    )
}
