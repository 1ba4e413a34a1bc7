// Numbers written into a lent buffer, little-endian, each behind the last.
// Kept: the room as a test of lengths in each writer and no cursor: `Wrote` and `Answered` speak of the whole buffer and of the place behind what is written.
ghost use Rattle.std.specs.Prelude.{◌≡◌, ℕ, List, ◌+◌, ◌*◌, ◌≤◌, ◌++◌, length};
ghost use Rattle.std.specs.List.{flat_map};
ghost use Rattle.law.specs.Written.{Wrote};
ghost use Rattle.field.specs.Bytes.{u32_bytes};

// A number that is written as its bytes, the low one first.
pub trait Little: Copy {
    ghost bytes: { Self → List ℕ };

    ghost width: { ℕ };

    // A number's bytes, and the place behind them.
    fn put(self, out: &mut [u8], at: usize) -> usize
        requires { at + width ≤ length out.old }
        ensures wrote { Wrote out.old at (bytes self) out.new result }
        ensures ends { result ≡ at + width };
}

impl Little for u32 {
    ghost bytes = { u32_bytes };

    ghost width = { 4 };

    fn put(self, out: &mut [u8], at: usize) -> usize {
        put_bytes(out, at, &self.to_le_bytes())
    }
}

impl Little for u64 {
    ghost use Rattle.field.specs.Bytes.{u64_bytes};

    ghost bytes = { u64_bytes };

    ghost width = { 8 };

    fn put(self, out: &mut [u8], at: usize) -> usize {
        put_bytes(out, at, &self.to_le_bytes())
    }
}

// Cells, one behind the other.
pub fn put_all<N: Little>(out: &mut [u8], at: usize, cells: &[N]) -> usize
    requires { at + N.width * length cells.now ≤ length out.old }
    ensures wrote { Wrote out.old at (flat_map N.bytes cells.now) out.new result }
    ensures ends { result ≡ at + N.width * length cells.now }
{
    let mut end = at;
    for cell in cells {
        end = cell.put(out, end);
    }
    end
}

// Bytes as they stand.
// Kept: written here, in text and in import: three lines each, no plainer as a public call of a lower crate, with promise and edits of its own.
pub fn put_bytes(out: &mut [u8], at: usize, bytes: &[u8]) -> usize
    requires { at + length bytes.now ≤ length out.old }
    ensures wrote { Wrote out.old at bytes.now out.new result }
    ensures ends { result ≡ at + length bytes.now }
{
    let end = at + bytes.len();
    out[at..end].copy_from_slice(bytes);
    end
}

// A number, and bytes behind it.
pub fn put_counted(out: &mut [u8], n: u32, bytes: &[u8]) -> usize
    requires { 4 + length bytes.now ≤ length out.old }
    ensures { Wrote out.old 0 (u32_bytes n ++ bytes.now) out.new result }
{
    let at = n.put(out, 0);
    put_bytes(out, at, bytes)
}
