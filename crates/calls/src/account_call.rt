// The account call, with the cells that it is lent and all that it leaves in them.
ghost use Rattle.std.specs.Prelude.{◌+◌, ◌*◌, ◌≤◌, length};
ghost use Rattle.law.specs.Written.{Wrote};
ghost use Rattle.calls.specs.Answers.{Answered, lent_cells, answer_bytes, left_bytes, account_bytes};

use crate::{bytes, lent};

// The answer's cells, and behind them every lent cell.
// Kept: three tables beside the answer, as the C interface lends them: a struct of them would be no plainer.
fn put_left(
    out: &mut [u8],
    answer: &[u64; 8],
    rows: &[u64],
    concentration: &[u32],
    flow: &[u32],
) -> usize
    requires { answer_bytes + 8 * length rows.now + 4 * length concentration.now + 4 * length flow.now ≤ length out.old }
    ensures { Wrote out.old 0 (left_bytes answer.now rows.now concentration.now flow.now) out.new result }
{
    let a = bytes::put_all(out, 0, answer);
    let r = bytes::put_all(out, a, rows);
    let c = bytes::put_all(out, r, concentration);
    bytes::put_all(out, c, flow)
}

// The cells are filled, the call is made, and what it answers and leaves is written.
pub fn answer(
    file: &[u8],
    rows: &mut [u64],
    concentration: &mut [u32],
    flow: &mut [u32],
    seed: u32,
    out: &mut [u8],
) -> usize
    requires { answer_bytes + 8 * length rows.old + 4 * length concentration.old + 4 * length flow.old ≤ length out.old }
    ensures { Answered (account_bytes file.now (lent_cells seed (length rows.old))
        (lent_cells seed (length concentration.old)) (lent_cells seed (length flow.old))) out.old out.new result }
{
    lent::fill(rows, seed);
    lent::fill(concentration, seed);
    lent::fill(flow, seed);
    let mut cells = [0; 8];
    doarpezwim::doarpezwim_account(file, rows, concentration, flow, &mut cells);
    put_left(out, &cells, rows, concentration, flow)
}
