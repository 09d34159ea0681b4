// New: how a switch starts.
ghost use Rattle.std.specs.Prelude.{◌≡◌, IfOk};
ghost use Rattle.frame.specs.Refusals.{told};
ghost use Rattle.cells.specs.Stores.{all_free};
ghost use Rattle.rules.specs.Switch.{new_answer};
ghost use Rattle.switch.specs.Switches.{cells, kinds as kinds_of, state};

use crate::switches::{Kinds, Switch};
use buffers::buffers::Buffers;
use cells::rules::Rule;
use cells::stores::Store;
use egress::pools::Pool;
use egress::slots::Bucket;
use forwarding::routes::Forwarding;
use frame::numbers::Slot;
use frame::refusals::Refusal;
use gates::plans::Plan;

// How many frame numbers there are.
pub const NUMBERS: u64 = 1 << 48;

// The places of the settings that can be wrong.
const FIRST_SLOT: usize = 0;

const FIRST_NUMBER: usize = 1;

// Where a switch starts: its first slot and the number of its first frame, and the bucket of each port. Slot and number
// are as they were given, and may be too large.
#[derive(Clone, Copy)]
pub struct Settings {
    pub slot: u64,
    pub number: u64,
    pub bucket: Bucket,
}

impl<S: Store, P: Plan + Drop, R: Rule + Drop, F: Forwarding + Drop> Switch<S, P, R, F> {
    // A switch with empty queues and full buckets, over a new store.
    pub fn new(settings: Settings, kinds: Kinds<P, R, F>) -> Result<Switch<S, P, R, F>, Refusal>
        ensures answer { told state result ≡ new_answer settings.slot settings.number settings.bucket.rate settings.bucket.depth }
        ensures kinds { IfOk result (λ s. kinds_of s ≡ kinds) }
        ensures cells { IfOk result (λ s. cells s ≡ all_free) }
    {
        let slot = Slot::new(settings.slot).ok_or(Refusal::BadSetting(FIRST_SLOT))?;
        if settings.number >= NUMBERS {
            return Err(Refusal::BadSetting(FIRST_NUMBER));
        }
        let bucket = settings.bucket;
        Ok(Switch {
            pool: Pool {
                store: S::fresh(),
                buffers: Buffers::new(settings.number, u32::from(bucket.depth)),
            },
            kinds,
            slot,
            bucket,
        })
    }
}
