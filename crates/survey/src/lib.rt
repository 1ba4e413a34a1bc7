// The governing survey: a part of one of two lent byte slices.
#![tactic(auto)]

ghost use Rattle.std.specs.Prelude.{◌≡◌, ℕ, ◌+◌, ◌*◌, ◌/◌, ◌<◌, ◌≤◌, false, true, length, MatchOption};
ghost use Rattle.survey.specs.Governing.{is_survey, here, governing};

// The kinds of a survey, as a record's second field has them.
// Kept: numbers and no enum: `is_survey` compares them with the record's bytes; `Surveyor` stands in `rules`, on which this crate does not stand.
const ENFORCEMENT: u16 = 3;

const PLANT: u16 = 4;

// Whether the block at a place is a survey of that kind and hour.
#[tactic(auto, unfolding(crate::specs::Governing::is_survey))]
fn is_survey(s: &[u8], kind: u16, hour: u16, at: usize) -> bool
    requires { at + 14 ≤ length s.now }
    ensures { result ≡ is_survey s.now kind hour at }
{
    field::u16_at(s, at) == 12
        && field::u16_at(s, at + 2) == kind
        && field::u16_at(s, at + 4) == hour
}

// The first block that is a survey of that kind and hour.
// Kept: numbers of blocks and no `chunks_exact`: `position` over those was tried, and the clause, which counts from the start of the slice, stayed open.
fn first_block(s: &[u8], kind: u16, hour: u16) -> Option<usize>
    ensures { MatchOption result ((k : ℕ) → k < length s.now / 14 → is_survey s.now kind hour (14 * k) ≡ false)
        (λ b. (b < length s.now / 14) × (is_survey s.now kind hour (14 * b) ≡ true)
        × ((k : ℕ) → k < b → is_survey s.now kind hour (14 * k) ≡ false)) }
{
    (0..s.len() / 14).find(|block| is_survey(s, kind, hour, 14 * block))
}

// The first enforcement survey of an hour, else the first plant survey, else the empty part at the start of the plant slice.
pub fn governing_survey<'a>(enforcement: &'a [u8], plant: &'a [u8], hour: u16) -> &'a [u8]
    ensures { here result ≡ governing enforcement.entry plant.entry hour }
{
    if let Some(block) = first_block(enforcement, ENFORCEMENT, hour) {
        return &enforcement[14 * block..14 * block + 14];
    }
    if let Some(block) = first_block(plant, PLANT, hour) {
        return &plant[14 * block..14 * block + 14];
    }
    &plant[..0]
}
