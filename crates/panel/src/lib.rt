// The panel: a running total of whole products in an f64, with its hours and missing hours.
#![tactic(auto)]

ghost use Rattle.std.specs.Prelude.{◌≡◌, ◌*◌, ◌<◌, true};
ghost use Rattle.law.specs.Numbers.{most_hours};
ghost use Rattle.reading.specs.Reading.{concentration_of, flow_of, both};
ghost use Rattle.panel.specs.Lawful.{lawful_total};
ghost use Rattle.panel.specs.Panel.{outcome, stepped, added, after_hour, panel_step, empty_panel};

use reading::Hour;
use rules::Refusal;

mod lawful; // lawful.rt

// "2,208 hours."
const MOST_HOURS: u32 = 2_208;

// "Up to 2^53 the f64 total equals the whole number exactly."
const MOST_TOTAL: u64 = 1 << 53;

// "The panel keeps a running total as an f64, with its hours and missing hours."
#[derive(Clone, Copy, Debug, Default, PartialEq)]
pub struct Panel {
    pub total: f64,
    pub hours: u32,
    pub missing: u32,
}

// What refuses an hour, if anything does, and the next state.
// Kept: a refusal beside the state and no Result, since `panel_step` hands the state back with a refusal too.
#[derive(Clone, Copy, Debug, PartialEq)]
pub struct Stepped {
    pub refused: Option<Refusal>,
    pub next: Panel,
}

impl Panel {
    // A panel before any hour.
    pub fn new() -> Self
        ensures { result ≡ empty_panel }
    {
        Self::default()
    }

    // 10, or the product added to the total, and 1 to the hours. The limit is tested in whole numbers: as an f64, 2^53 + 1 is 2^53.
    fn add(&mut self, c: u32, l: u32) -> Result<(), Refusal>
        requires { (lawful_total self.old.total ≡ true) × (self.old.hours < most_hours) }
        ensures { outcome result self.new ≡ added self.old (c * l) }
    {
        let product = u64::from(c) * u64::from(l);
        if product > MOST_TOTAL - self.total as u64 {
            return Err(Refusal::TotalTooLarge);
        }
        self.total += product as f64;
        self.hours += 1;
        Ok(())
    }

    // A measured hour: 4, or the product of its two figures.
    fn measure(&mut self, concentration: f32, flow: f32) -> Result<(), Refusal>
        requires { (lawful_total self.old.total ≡ true) × (self.old.hours < most_hours) }
        ensures { outcome result self.new ≡ after_hour self.old (both (concentration_of concentration) (flow_of flow)) }
    {
        let c = reading::concentration(concentration).ok_or(Refusal::BadReading)?;
        let l = reading::flow(flow).ok_or(Refusal::BadReading)?;
        self.add(c, l)
    }

    // For every state and every hour: 12, 11, 4, 10, "with the state unchanged".
    fn take(&mut self, h: Hour) -> Result<(), Refusal>
        ensures { outcome result self.new ≡ panel_step self.old h }
    {
        if !self.is_lawful() {
            return Err(Refusal::UnlawfulPanel);
        }
        if self.hours >= MOST_HOURS {
            return Err(Refusal::TooManyHours);
        }
        match h {
            Hour::Measured(c, l) => self.measure(c, l),
            Hour::Missing => {
                self.missing += 1;
                self.hours += 1;
                Ok(())
            }
            Hour::Stopped => {
                self.hours += 1;
                Ok(())
            }
        }
    }

    // "Each hour hands the next state back."
    pub fn hour(mut self, h: Hour) -> Stepped
        ensures { stepped result ≡ panel_step self h }
    {
        let refused = self.take(h).err();
        Stepped {
            refused,
            next: self,
        }
    }
}
