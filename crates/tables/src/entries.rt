// An entry by its place in a row of a table, or that there is none; the tables q and K.
ghost use Rattle.std.specs.Prelude.{◌≡◌};
ghost use Rattle.rules.specs.Tables.{at, q, k};

// "q (0.1 %, table 1)", a row for each furnace, by coal.
static Q1: [Option<u32>; 7] = [
    Some(40),
    Some(20),
    Some(20),
    Some(15),
    Some(5),
    Some(30),
    Some(25),
];

static Q2: [Option<u32>; 5] = [Some(20), None, Some(10), Some(10), Some(5)];

static Q3: [Option<u32>; 4] = [Some(25), None, Some(20), Some(20)];

// "K (0.01, table 2)", by furnace.
static K: [Option<u32>; 3] = [Some(90), Some(90), Some(85)];

// Place 1, 2, .. of a row, and none at 0 or past its end.
// Kept: the place as the head's byte: `coefficients` answers every head, and a byte that is no code has no entry.
#[tactic(auto, using(crate::proofs::Rows::at_cell), unfolding(rules::specs::Tables::at))]
pub fn at_place(place: u8, row: &[Option<u32>]) -> Option<u32>
    ensures { result ≡ at place row.now }
{
    *row.get(usize::from(place).checked_sub(1)?)?
}

// q, by furnace and coal.
// Kept: codes as bytes, as in `coefficients`, which answers every head.
#[tactic(auto, unfolding(rules::specs::Tables::q, law::specs::Words::pick, law::specs::Words::need))]
pub fn q_entry(furnace: u8, coal: u8) -> Option<u32>
    ensures { result ≡ q furnace coal }
{
    match furnace {
        1 => at_place(coal, &Q1),
        2 => at_place(coal, &Q2),
        3 => at_place(coal, &Q3),
        _ => None,
    }
}

// K, by furnace.
#[tactic(auto, unfolding(rules::specs::Tables::k))]
pub fn k_entry(furnace: u8) -> Option<u32>
    ensures { result ≡ k furnace }
{
    at_place(furnace, &K)
}
