// The rule whose floors are set.
ghost use Rattle.std.specs.Prelude.{◌≡◌};
ghost use Rattle.frame.specs.Refusals.{told};
ghost use Rattle.cells.specs.Settings.{threshold_floors, thresholds_set};
ghost use Rattle.std.proofs.Common.{rules};

use crate::rules::{NEVER, Rule};
use frame::classes::Class;
use frame::refusals::Refusal;

// The largest threshold.
pub const HIGHEST: u16 = 511;

// The thresholds as they were set, of reserved frames and of best effort.
#[derive(Clone, Copy, Debug)]
pub struct Thresholds {
    reserved: u16,
    best_effort: u16,
}

impl Thresholds {
    pub fn new(reserved: u16, best_effort: u16) -> Result<Thresholds, Refusal>
        ensures { told threshold_floors result ≡ thresholds_set reserved best_effort }
    {
        if reserved > HIGHEST {
            return Err(Refusal::BadSetting(0));
        }
        if best_effort > HIGHEST {
            return Err(Refusal::BadSetting(1));
        }
        Ok(Thresholds {
            reserved,
            best_effort,
        })
    }
}

impl Rule for Thresholds {
    ghost floors = { threshold_floors };

    ghost fair = { Prim.search rules };

    fn floor(&self, class: Class) -> usize {
        let reserved = usize::from(self.reserved).min(NEVER).max(1);
        match class {
            Class::BestEffort => usize::from(self.best_effort).min(NEVER).max(reserved),
            Class::Reserved => reserved,
            Class::Clock | Class::TimeSensitive => 1,
        }
    }
}
