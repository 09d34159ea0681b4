// The turns of a run.
use cells::stores::Store;
use switch::answers::Gauged;
use switch::calls::{Answer, Call};
use switch::switches::Switch;

// A call with the buffer that it is made with, and its answer once it was made. Only Look writes to the buffer.
#[derive(Drop)]
pub struct Turn<'a> {
    pub call: Call<'a>,
    pub buffer: Vec<u8>,
    pub answer: Option<Answer>,
}

// The switch after the last turn, and what Standing and Gauge answer then.
#[derive(Drop)]
pub struct Ended<S: Store, P, R, F> {
    pub switch: Switch<S, P, R, F>,
    pub standing: [[u32; 4]; 4],
    pub gauges: [Gauged; 4],
}
