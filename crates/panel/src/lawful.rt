// What makes a panel's state lawful: a whole total in an f64, and its two counts.
ghost use Rattle.std.specs.Prelude.{◌≡◌};
ghost use Rattle.panel.specs.Lawful.{lawful_total, lawful};

use crate::{MOST_HOURS, MOST_TOTAL, Panel};

// "A whole number from +0 to 2^53." Bits are compared: as floats minus zero equals zero.
fn is_whole(t: f64) -> bool
    ensures { result ≡ lawful_total t }
{
    if t > -1.0 && t < 18_446_744_073_709_551_616.0 {
        let n = std::num::truncating_f64_to_u64(t);
        return n <= MOST_TOTAL && (n as f64).to_bits() == t.to_bits();
    }
    false
}

impl Panel {
    // 12: "total not a whole number from +0 to 2^53, hours over 2,208, missing over hours".
    #[tactic(auto, unfolding(crate::specs::Lawful::lawful))]
    pub(crate) fn is_lawful(&self) -> bool
        ensures { result ≡ lawful self.now }
    {
        is_whole(self.total) && self.hours <= MOST_HOURS && self.missing <= self.hours
    }
}
