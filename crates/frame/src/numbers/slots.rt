// Slots.
ghost use Rattle.std.specs.Prelude.{◌≡◌, ◌^◌};
ghost use Rattle.std.specs.Option.{option_map};
ghost use Rattle.frame.specs.Numbers.{slot_number, slot_after, below};
ghost use Rattle.frame.specs.Refusals.{told};

use crate::numbers::Slot;
use crate::refusals::Refusal;

// How many slots there are.
pub const SLOTS: u64 = 1 << 48;

impl Slot {
    pub fn new(number: u64) -> Option<Slot>
        ensures { option_map slot_number result ≡ below (2 ^ 48) number }
    {
        if number >= SLOTS {
            return None;
        }
        Some(Slot { number })
    }

    pub fn number(self) -> u64
        ensures { result ≡ slot_number self }
    {
        self.number
    }

    // The slot that follows.
    pub fn next(self) -> Result<Slot, Refusal>
        ensures { told slot_number result ≡ slot_after (slot_number self) }
    {
        Slot::new(self.number + 1).ok_or(Refusal::NumbersUsedUp)
    }
}
