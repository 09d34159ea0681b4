// What a switch is made of.
use cells::stores::Store;
use egress::pools::Pool;
use egress::slots::Bucket;
use frame::numbers::Slot;

pub mod arrivals;
pub mod clears;
pub mod ends;
pub mod looks;
pub mod makes;
pub mod readings;
pub mod returns;
pub mod starts;
pub mod takes;
pub mod ticks;

// What stands behind a switch beside its store.
#[derive(Drop)]
pub struct Kinds<P, R, F> {
    pub plan: P,
    pub rule: R,
    pub forwarding: F,
}

// What a call keeps, each call says in its own contract, so that it can be read alone. So is what plan, rule and forwarding
// mean, by the members of their bounds: a name for the four members would be a record of them, made in each clause.
// A cell is free in the store exactly if no frame with a copy is in it: that is the pool's invariant, which New makes
// hold, and every call keeps.
#[derive(Drop)]
pub struct Switch<S: Store, P, R, F> {
    pool: Pool<S>,
    kinds: Kinds<P, R, F>,
    slot: Slot,
    bucket: Bucket,
}
