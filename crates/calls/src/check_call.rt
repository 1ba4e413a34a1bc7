// The call of the check, over cells that stand in the frame as bytes.
ghost use Rattle.std.specs.Prelude.{◌≡◌, ◌+◌, ◌*◌, ◌<◌, ◌≤◌, length};
ghost use Rattle.calls.specs.Answers.{Answered, cells_at, check_bytes};

use crate::bytes;

// Cells of eight bytes, read from a place on.
fn read_cells(s: &[u8], from: usize, cells: &mut [u64])
    requires { (from < 4_294_967_296) × (length cells.old < 4_294_967_296) }
    ensures { cells.new ≡ cells_at s.now from (length cells.old) }
{
    for (i, cell) in cells.iter_mut().enumerate() {
        *cell = field::u64_at(s, from + 8 * i);
    }
}

// The rows' cells and the five totals are read, the call is made, and what it answers is written.
pub fn answer(file: &[u8], filed: &[u8], rows: &mut [u64], out: &mut [u8]) -> usize
    requires { (length rows.old ≤ 512) × (24 ≤ length out.old) }
    ensures { Answered (check_bytes file.now (cells_at filed.now 0 (length rows.old))
        (cells_at filed.now (8 * length rows.old) 5)) out.old out.new result }
{
    let mut totals = [0; 5];
    read_cells(filed, 8 * rows.len(), &mut totals);
    read_cells(filed, 0, rows);
    let mut cells = [0; 3];
    doarpezwim::doarpezwim_check(file, rows, &totals, &mut cells);
    bytes::put_all(out, 0, &cells)
}
