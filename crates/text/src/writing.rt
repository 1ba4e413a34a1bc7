// Bytes and numbers written into a lent buffer, each behind the last, where there is room.
// Kept: no `write!` of a Display: it promises its text only where it answers Ok, and not that it does so where there is room; `said_text` always writes.
ghost use Rattle.std.specs.Prelude.{[], ◌∷◌, ◌++◌, ◌+◌, ◌*◌, ◌<◌, ◌≤◌, length};
ghost use Rattle.text.specs.Numbers.{decimal, spaced};
ghost use Rattle.law.specs.Written.{Wrote};

// Bytes from a place on.
// Kept: written here, in import and in calls: three lines each, no plainer as a public call of a lower crate, with promise and edits of its own.
pub fn put_bytes(text: &mut [u8], at: usize, bytes: &[u8]) -> usize
    requires { at + length bytes.now ≤ length text.old }
    ensures { Wrote text.old at bytes.now text.new result }
{
    let end = at + bytes.len();
    text[at..end].copy_from_slice(bytes);
    end
}

// A number in decimal, and the byte behind it.
// Kept: the room as a test of lengths here and below, and no cursor: `Wrote` speaks of the whole buffer and of the place behind what is written.
fn put_number(text: &mut [u8], at: usize, n: u64, after: u8) -> usize
    requires { at + 21 ≤ length text.old }
    ensures { Wrote text.old at (decimal n ++ (after ∷ [])) text.new result }
{
    let mut digits = itoa::Buffer::new();
    let end = put_bytes(text, at, digits.format(n).as_bytes());
    text[end] = after;
    end + 1
}

// Numbers with a space between two, and a line feed.
pub fn put_spaced(text: &mut [u8], at: usize, cells: &[u64]) -> usize
    requires { at + 21 * length cells.now < length text.old }
    ensures { Wrote text.old at (spaced cells.now) text.new result }
{
    let Some((last, others)) = cells.split_last() else {
        return put_bytes(text, at, b"\n");
    };
    let mut end = at;
    for n in others {
        end = put_number(text, end, *n, b' ');
    }
    put_number(text, end, *last, b'\n')
}
