// A table of the hours or days of a line's period.
ghost use Rattle.std.specs.Prelude.{◌≡◌, set};

// The cell of an hour or a day; past the cells nothing is set.
pub fn put<T: Copy>(hour: u16, value: T, cells: &mut [T])
    ensures { cells.new ≡ set cells.old hour value }
{
    let hour = usize::from(hour);
    // Kept: of a write through `get_mut` no proof knows what the slice holds. Not shared with `put_mask` of `hours`: a public call more is no plainer.
    if hour < cells.len() {
        cells[hour] = value;
    }
}
