// What the tables q, K and A.1 have for a line.
#![tactic(auto)]

mod entries; // entries.rt
mod classes; // classes.rt
mod table_a1; // table_a1.rt

ghost use Rattle.std.specs.Prelude.{◌≡◌};
ghost use Rattle.rules.specs.Tables.{coefficients_of};
ghost use Rattle.rules.specs.OnPaper.{coefficients_on_paper};

use crate::entries::{k_entry, q_entry};
use crate::table_a1::{dust_entry, oxides_entry};
use rules::{Coefficients, Head};

// What the tables have for a line that goes by fuel: "sulphur dioxide by mass balance (3), the others by coefficient (4)". Formula 4 takes q and K,
// formula 5 one coefficient for oxides, and a and b for dust.
// Kept: pollutant, furnace, coal and mark by their bytes, since `coefficients_of` answers every head, judged or not.
#[tactic(auto, unfolding(crate::specs::Opened::lookups))]
pub fn coefficients(h: Head) -> Option<Coefficients>
    ensures { coefficients_on_paper result ≡ coefficients_on_paper (coefficients_of h) }
{
    match h.pollutant {
        1 => Some(Coefficients::Balance(q_entry(h.furnace, h.coal)?, k_entry(h.furnace)?)),
        2 => Some(Coefficients::Oxides(oxides_entry(h.furnace, h.mark, h.mw)?)),
        _ => {
            let (a, b) = dust_entry(h.furnace, h.coal, h.mw)?;
            Some(Coefficients::Dust(a, b))
        }
    }
}
