// Loading a list, and reading it.
ghost use Rattle.std.specs.Prelude.{◌≡◌};
ghost use Rattle.frame.specs.Numbers.{slot_number};
ghost use Rattle.frame.specs.Refusals.{told};
ghost use Rattle.gates.specs.GateLists.{entry_in, list_fills, list_opens};
ghost use Rattle.gates.specs.Loads.{listed, load_as};
ghost use Rattle.gates.specs.Alternation.{good, list_pair, list_turns, list_shut, list_sends};

use crate::gate_lists::GateList;
use crate::gate_lists::judging::{first_wrong, opens};
use crate::plans::Plan;
use arrayvec::ArrayVec;
use frame::numbers::{Queue, Slot};
use frame::refusals::Refusal;

impl GateList {
    // The list of these entries, or refusal 10 with the place where they are wrong first.
    pub fn load(entries: &[u8]) -> Result<GateList, Refusal>
        ensures { told listed result ≡ load_as entries.now }
    {
        // Judged before they are copied: a wrong list costs no copy, and a good one is copied into its place once.
        if let Some(place) = first_wrong(entries) {
            return Err(Refusal::BadSetting(place));
        }
        let mut list = ArrayVec::new();
        list.try_extend_from_slice(entries).unwrap();
        Ok(GateList { entries: list })
    }

    // The entry that the slot reads.
    fn entry(&self, slot: Slot) -> u8
        ensures { result ≡ entry_in (listed self.now) (slot_number slot) }
    {
        let place = slot.number() % self.entries.len() as u64;
        self.entries[place as usize]
    }
}

impl Plan for GateList {
    ghost fills = { λ l. list_fills (listed l) };

    ghost opens = { λ l. list_opens (listed l) };

    ghost pair = { λ p s h. list_pair (listed p) s };

    ghost turns = { λ p s h. list_turns (listed p) (good (listed p) p.good) s };

    ghost shut = { λ p s h. list_shut (listed p) (good (listed p) p.good) s };

    ghost sends = { λ p s h. list_sends (listed p) (good (listed p) p.good) s };

    fn fill(&self, slot: Slot) -> Queue {
        if opens(self.entry(slot), Queue::Cyclic0) {
            Queue::Cyclic1
        } else {
            Queue::Cyclic0
        }
    }

    fn is_open(&self, slot: Slot, queue: Queue) -> bool {
        opens(self.entry(slot), queue)
    }
}
