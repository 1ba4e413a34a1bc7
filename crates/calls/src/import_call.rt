// The call of the import, with the buffer that it is lent and all that it leaves in it.
ghost use Rattle.std.specs.Prelude.{◌+◌, ◌≤◌, ◌++◌, length};
ghost use Rattle.law.specs.Written.{Wrote};
ghost use Rattle.field.specs.Bytes.{u64_bytes, cells_bytes};
ghost use Rattle.calls.specs.Answers.{ImportAnswered};

use crate::{bytes, lent};

// The answer's cells, and behind them the whole buffer.
fn put_left(out: &mut [u8], answer: &[u64; 3], records: &[u8]) -> usize
    requires { 24 + length records.now ≤ length out.old }
    ensures { Wrote out.old 0 (cells_bytes u64_bytes answer.now ++ records.now) out.new result }
{
    let at = bytes::put_all(out, 0, answer);
    bytes::put_bytes(out, at, records)
}

// The buffer is filled, the call is made, and what it answers and leaves is written.
pub fn answer(text: &[u8], records: &mut [u8], seed: u32, out: &mut [u8]) -> usize
    requires { 24 + length records.old ≤ length out.old }
    ensures { ImportAnswered text.now seed (length records.old) out.old out.new result }
{
    lent::fill(records, seed);
    let mut cells = [0; 3];
    doarpezwim::doarpezwim_import(text, records, &mut cells);
    put_left(out, &cells, records)
}
