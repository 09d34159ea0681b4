// What the state is asked. No question changes it.
ghost use Rattle.std.specs.Prelude.{◌≡◌, ℕ, ◌≤◌, [], ◌∷◌, ◌++◌, length, drop};
ghost use Rattle.std.specs.Option.{option_map};
ghost use Rattle.frame.specs.Numbers.{port_number};
ghost use Rattle.rules.specs.Copies.{cost};
ghost use Rattle.rules.specs.Switch.{out_bytes};
ghost use Rattle.cells.specs.Fifos.{first_of};
ghost use Rattle.buffers.specs.Holdings.{egress, lengths_at, next_number};
ghost use Rattle.buffers.specs.Sent.{copy_sent, sent};

use crate::buffers::Buffers;
use frame::numbers::{FrameNumber, Port};

// A frame that is out: its number and its length in bytes.
#[derive(Clone, Copy)]
pub struct Sent {
    pub number: FrameNumber,
    pub length: usize,
}

impl Buffers {
    pub fn tokens(&self, port: Port) -> u32
        ensures { (d : ℕ) → result ≡ (egress d self.now (port_number port)).tokens }
    {
        self.board.port(port).tokens()
    }

    // The number that the next frame gets.
    pub fn next(&self) -> u64
        ensures { result ≡ next_number self.now }
    {
        self.frames.next()
    }

    // The copy that is out.
    pub fn out(&self, port: Port) -> Option<Sent>
        ensures { (d : ℕ) → option_map sent result ≡ option_map copy_sent (egress d self.now (port_number port)).out }
    {
        let copy = self.board.port(port).out()?;
        Some(Sent {
            number: copy.number,
            length: self.frames.get(copy.cell).length,
        })
    }

    // What the first copy of queue 2 costs.
    pub fn price(&self, port: Port) -> Option<u32>
        ensures { (d : ℕ) → result ≡ option_map cost (first_of ((egress d self.now (port_number port)).queue 2)) }
    {
        self.board.port(port).price()
    }

    // How many copies are in each queue of each port.
    pub fn lengths(&self) -> [[u32; 4]; 4]
        ensures { (d : ℕ) → result ≡ lengths_at (egress d self.now 0) ∷ lengths_at (egress d self.now 1) ∷ lengths_at (egress d self.now 2) ∷ lengths_at (egress d self.now 3) ∷ [] }
    {
        self.board.lengths()
    }

    // Writes the frame that is out to the front of a buffer that has room for it.
    pub fn look(&self, port: Port, buffer: &mut [u8])
        requires { (d : ℕ) → length (out_bytes (egress d self.now (port_number port)).out) ≤ length buffer.old }
        ensures { (d : ℕ) → buffer.new ≡ out_bytes (egress d self.now (port_number port)).out ++ drop (length (out_bytes (egress d self.now (port_number port)).out)) buffer.old }
    {
        if let Some(copy) = self.board.port(port).out() {
            self.frames.read(copy.cell, buffer);
        }
    }
}
