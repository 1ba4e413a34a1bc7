// Lists of cells: cleared and written from the front.
// Kept: three calls over std's `fill`, `min` and `copy_from_slice`: public calls, whose promises and edits stay.
#![tactic(auto)]

ghost use Rattle.std.specs.Prelude.{◌≡◌, min, length, get_or};
ghost use Rattle.law.specs.Words.{over};

// The first n cells become 0, or all where there are fewer.
pub fn clear_first(cells: &mut [u32], n: usize)
    ensures { cells.new ≡ over (λ h. 0) (min n (length cells.old)) cells.old }
{
    let n = n.min(cells.len());
    cells[..n].fill(0);
}

// The lesser of two counts.
pub fn lesser(a: usize, b: usize) -> usize
    ensures { result ≡ min a b }
{
    a.min(b)
}

// The figures into the first cells, as many as there are of both.
pub fn put_figures(figures: &[u64], cells: &mut [u64])
    ensures { cells.new ≡ over (λ k. get_or figures.now k 0) (min (length figures.now) (length cells.old)) cells.old }
{
    let n = figures.len().min(cells.len());
    cells[..n].copy_from_slice(&figures[..n]);
}
