// The word and the numbers of an outcome.
ghost use Rattle.std.specs.Prelude.{◌≡◌, ◌≤◌, ◌∷◌, length};
ghost use Rattle.lines.specs.Lines.{values, word};
ghost use Rattle.lines.specs.Outcomes.{outcome};

use crate::outcomes::Outcome;
use arrayvec::ArrayVec;

// The most numbers of a line.
const VALUES: usize = 3;

impl Outcome {
    // A space and the word.
    pub fn word(&self) -> &'static str
        ensures { result.now ≡ 32 ∷ word (outcome self.now) }
    {
        match self {
            Outcome::New => " new",
            Outcome::Laid { .. } => " laid",
            Outcome::Slot { .. } => " slot",
            Outcome::Sent { .. } => " sent",
            Outcome::Idle { .. } => " idle",
            Outcome::Cleared { .. } => " cleared",
            Outcome::Refused(_) => " refused",
            Outcome::Fault(_) => " fault",
        }
    }

    // The numbers.
    pub fn values(&self) -> ArrayVec<u64, VALUES>
        ensures { result.items ≡ values (outcome self.now) }
    {
        match *self {
            Outcome::New => ArrayVec::new(),
            Outcome::Laid {
                number,
                class,
                ports,
            } => few(&[number.0, u64::from(class.number()), u64::from(ports.bits())]),
            Outcome::Slot { slot, late } => few(&[slot.number(), u64::from(late)]),
            Outcome::Sent {
                port,
                number,
                overdrawn,
            } => few(&[u64::from(port), number.0, u64::from(overdrawn)]),
            Outcome::Idle { port, overdrawn } => few(&[u64::from(port), u64::from(overdrawn)]),
            Outcome::Cleared { port, count } => few(&[u64::from(port), u64::from(count)]),
            Outcome::Refused(refusal) => few(&[u64::from(refusal.number())]),
            Outcome::Fault(refusal) => few(&[u64::from(refusal.number()), refusal.value()]),
        }
    }
}

// These numbers, no more than a line has.
fn few(numbers: &[u64]) -> ArrayVec<u64, VALUES>
    requires { length numbers.now ≤ 3 }
    ensures { result.items ≡ numbers.now }
{
    ArrayVec::try_from(numbers).unwrap()
}
