// What stands between the faces and the calls behind them: the number of an answer, an answer in its cells, an hour by its kind.
// Kept: functions and no `From`: neither a `Result` nor an array is a type of this crate, and one made only to hang `From` on would be no plainer.
#![tactic(auto, using(law::proofs::Tests::judged), unfolding(crate::specs::Opened::faces))]

ghost use Rattle.std.specs.Prelude.{◌≡◌, Some, None, leb};
ghost use Rattle.law.specs.Words.{need};
ghost use Rattle.rules.specs.Refusals.{told, answered};
ghost use Rattle.import.specs.Import.{imported};
ghost use Rattle.filed.specs.Filed.{verdict_on_paper};
ghost use Rattle.doarpezwim.specs.Faces.{answer_cells, import_cells, verdict_cells, hour_of_kind};

use filed::Verdict;
use reading::Hour;
use rules::{Account, Refused};

// The number of an answer, 0 where it is no refusal.
// Kept: 0 and no Option, the C interface: `AccountFace` and `ImportFace` return it so.
pub fn number<T>(said: &Result<T, Refused>) -> u32
    ensures { result ≡ (told said.now).number }
{
    // Kept: a `match` and no `map_or`, which of a lent Result takes `as_ref().err()` before it and is no plainer.
    match said {
        Ok(_) => 0,
        Err(f) => u32::from(f.refusal),
    }
}

// The answer goes out in eight cells, so that no caller depends on how a struct lies in memory.
pub fn answer_cells(said: Result<Account, Refused>) -> [u64; 8]
    ensures { result ≡ answer_cells (answered said) }
{
    match said {
        Ok(account) => {
            let [sulphur, oxides, dust, oxygen, ammonia] = account.totals;
            [
                0,
                0,
                account.lines as u64,
                sulphur,
                oxides,
                dust,
                oxygen,
                ammonia,
            ]
        }
        Err(f) => [u64::from(f.refusal), f.place as u64, 0, 0, 0, 0, 0, 0],
    }
}

// The answer of an import, likewise.
pub fn import_cells(said: Result<usize, Refused>) -> [u64; 3]
    ensures { result ≡ import_cells (imported said) }
{
    match said {
        Ok(count) => [0, 0, count as u64],
        Err(f) => [u64::from(f.refusal), f.place as u64, 0],
    }
}

// What is said of a filing, likewise: it agrees, it is wrong, it is refused.
pub fn verdict_cells(said: Result<Verdict, Refused>) -> [u64; 3]
    ensures { result ≡ verdict_cells (verdict_on_paper said) }
{
    match said {
        Ok(Verdict::Agrees) => [0, 0, 0],
        Ok(Verdict::Wrong(row, field)) => [1, row as u64, field as u64],
        Err(f) => [2, u64::from(f.refusal), f.place as u64],
    }
}

// Kind 0 is a stopped hour, 1 a missing one, 2 a measured one; there is no other.
// Kept: a kind as a number, the C interface: `doarpezwim_panel_hour` takes every one.
pub fn hour_of_kind(kind: u32, concentration: f32, flow: f32) -> Option<Hour>
    ensures { result ≡ need None (leb kind 2) (Some (hour_of_kind kind concentration flow)) }
{
    match kind {
        0 => Some(Hour::Stopped),
        1 => Some(Hour::Missing),
        2 => Some(Hour::Measured(concentration, flow)),
        _ => None,
    }
}
