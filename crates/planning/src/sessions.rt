// A switch with the planner's kinds, on which records are performed.
use cells::rings::Ring;
use cells::thresholds::Thresholds;
use frame::readings::LONGEST;
use gates::parities::Parity;
use switch::switches::Switch;

pub mod performances;

// The buffer is where the bytes of a frame go as it is sent.
#[derive(Drop)]
pub struct Session<F> {
    switch: Switch<Ring, Parity, Thresholds, F>,
    buffer: [u8; LONGEST],
}
