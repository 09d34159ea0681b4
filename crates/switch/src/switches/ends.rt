// The end of a switch.
ghost use Rattle.std.specs.Prelude.{◌≡◌};
ghost use Rattle.switch.specs.Switches.{store_of};

use crate::switches::Switch;
use cells::stores::Store;
use egress::pools::Pool;

impl<S: Store, P: Drop, R: Drop, F: Drop> Switch<S, P, R, F> {
    // Gives the switch up and hands its store out, so that a bench can read what a layer over it wrote down.
    pub fn into_store(self) -> S
        ensures { result ≡ store_of self }
    {
        let Switch {
            pool: Pool { store, buffers: _ },
            kinds: _,
            slot: _,
            bucket: _,
        } = self;
        store
    }
}
