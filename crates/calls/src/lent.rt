// The cells that a call is lent, filled with numbers that show which of them the call wrote.
ghost use Rattle.std.specs.Prelude.{◌≡◌, ℕ, ◌+◌, ◌%◌, ◌^◌, length};
ghost use Rattle.law.specs.Words.{table};

// A cell that is filled with a number, or with as much of it as it holds.
pub trait Lent: Copy + Drop {
    ghost cell: { ℕ → Self };

    fn of(number: u32) -> Self
        ensures { result ≡ cell number };
}

// Bytes for records.
impl Lent for u8 {
    ghost cell = { λ n. n % 256 };

    fn of(number: u32) -> u8 {
        (number % 256) as u8
    }
}

// Work cells.
impl Lent for u32 {
    ghost cell = { λ n. n };

    fn of(number: u32) -> u32 {
        number
    }
}

// Row cells.
impl Lent for u64 {
    ghost cell = { λ n. n };

    fn of(number: u32) -> u64 {
        number.into()
    }
}

// From the seed on, each number one more than the last.
// Kept: a number counted beside the cells and no `enumerate`: it wraps at 2^32, and an index cast to u32 would owe that no table is longer.
pub fn fill<T: Lent>(cells: &mut [T], seed: u32)
    ensures { cells.new ≡ table (λ i. T.cell ((seed + i) % 2 ^ 32)) (length cells.old) }
{
    let mut number = seed;
    for cell in cells.iter_mut() {
        *cell = T::of(number);
        number = number.wrapping_add(1);
    }
}
